//! What a job and its options ask for.

ghost use Rattle.std.specs.Prelude.{◌≡◌, ◌<◌, ◌≤◌, IfSome, option_map};
ghost use Rattle.tdf_cli_words.specs.Jobs.{number_within, stop_of, step_of, trace_kind, turns_given, save_part, has_run_option, has_load_option, has_table_option, has_other_option, has_run_choice, run_values, run_options, save_given, resume_given, alone, load_given, choice_for, sample_given, stats_given, settings_given, most_turns, IsChoice, IsRun, IsStep, IsWithin};
ghost use Rattle.tdf_cli_words.specs.declared.asked.Settings.TheVariants.{Drive, Run};
ghost use Rattle.tdf_base.specs.Limits.{time_end};

use crate::asked::{RunOptions, SavePart, Settings};
use crate::command::Given;
use tdf_base::{read_int, read_time};
use tdf_sampling::Choice;
use tdf_trace_rows::TraceKind;

/// The turns of a run that says none.
const USUAL_TURNS: u64 = 100_000_000;
/// The most turns that a run may take.
const MOST_TURNS: u64 = 1_000_000_000_000;
/// The greatest seed of a made model.
const GREATEST_SEED: u64 = 65_536;
/// The greatest size of a made model.
const GREATEST_SIZE: u64 = 500;
/// The greatest number of `--nth`.
const MOST_NTH: u64 = 1_000_000_000_000;

/// The number that 1 to 18 digits spell, from `least` to `most`.
fn number_within(least: u64, most: u64, text: &str) -> Option<u64>
    ensures value { result ≡ number_within least most text.now }
    ensures within { IfSome result (λ n. (least ≤ n) × (n ≤ most)) }
{
    let number = read_int(text.as_bytes())?;
    if least <= number && number <= most {
        return Some(number);
    }
    None
}

/// The time of `--stop` in ps.
fn stop(given: &Given) -> Option<u64>
    ensures value { result ≡ stop_of given.now.stop }
    ensures early { IfSome result (λ t. t < time_end) }
{
    match read_time(given.stop?.as_bytes()) {
        Ok(time) => Some(time),
        Err(_) => None,
    }
}

/// The kind of `--format`.
fn kind(given: &Given) -> Option<TraceKind>
    ensures { result ≡ trace_kind given.now.format }
{
    let Some(text) = given.format else {
        return Some(TraceKind::Table);
    };
    if text == "table" {
        return Some(TraceKind::Table);
    }
    if text == "vcd" {
        return Some(TraceKind::Vcd);
    }
    None
}

/// The number of `--turns`.
fn turns(given: &Given) -> Option<u64>
    ensures value { result ≡ turns_given given.now.turns }
    ensures within { IfSome result (λ n. (1 ≤ n) × (n ≤ most_turns)) }
{
    match given.turns {
        None => Some(USUAL_TURNS),
        Some(text) => number_within(1, MOST_TURNS, text),
    }
}

/// The value of `--part`.
fn part(given: &Given) -> Option<SavePart>
    ensures { result ≡ save_part given.now.part }
{
    let text = given.part?;
    if text == "trace" {
        return Some(SavePart::Trace);
    }
    if text == "state" {
        return Some(SavePart::State);
    }
    None
}

fn has_run_choice(given: &Given) -> bool
    ensures { result ≡ has_run_choice given.now }
{
    given.format.is_some() || given.turns.is_some() || given.part.is_some()
}

fn has_run_option(given: &Given) -> bool
    ensures { result ≡ has_run_option given.now }
{
    given.stop.is_some() || has_run_choice(given)
}

fn has_load_option(given: &Given) -> bool
    ensures { result ≡ has_load_option given.now }
{
    given.seed.is_some() || given.size.is_some()
}

fn has_table_option(given: &Given) -> bool
    ensures { result ≡ has_table_option given.now }
{
    given.every.is_some() || given.nth.is_some()
}

fn has_other_option(given: &Given) -> bool
    ensures { result ≡ has_other_option given.now }
{
    has_load_option(given) || has_table_option(given)
}

/// The values of the options of a run.
fn run_values(given: &Given) -> Option<RunOptions>
    ensures value { result ≡ run_values given.now }
    ensures within { IfSome result (λ asked. IsRun asked.stop asked.turns) }
{
    let stop = stop(given)?;
    let kind = kind(given)?;
    let turns = turns(given)?;
    Some(RunOptions { stop, kind, turns })
}

/// The options of a run, for a job that has these alone.
fn run_options(given: &Given) -> Option<RunOptions>
    ensures value { result ≡ run_options given.now }
    ensures within { IfSome result (λ asked. IsRun asked.stop asked.turns) }
{
    if has_other_option(given) || given.part.is_some() {
        return None;
    }
    run_values(given)
}

/// What `run` asks for.
fn run(given: &Given) -> Option<Settings>
    ensures value { result ≡ option_map Run (run_options given.now) }
    ensures within { IfSome result IsWithin }
{
    Some(Settings::Run(run_options(given)?))
}

/// What `drive` asks for.
fn drive(given: &Given) -> Option<Settings>
    ensures value { result ≡ option_map Drive (run_options given.now) }
    ensures within { IfSome result IsWithin }
{
    Some(Settings::Drive(run_options(given)?))
}

/// What `save` asks for.
fn save(given: &Given) -> Option<Settings>
    ensures value { result ≡ save_given given.now }
    ensures within { IfSome result IsWithin }
{
    if has_other_option(given) {
        return None;
    }
    let part = part(given)?;
    let asked = run_values(given)?;
    Some(Settings::Save(part, asked))
}

/// What `resume` asks for.
fn resume(given: &Given) -> Option<Settings>
    ensures value { result ≡ resume_given given.now }
    ensures within { IfSome result IsWithin }
{
    if has_run_choice(given) || has_other_option(given) {
        return None;
    }
    Some(Settings::Resume { stop: stop(given)? })
}

/// What a job without options asks for.
fn alone(job: Settings, given: &Given) -> Option<Settings>
    ensures value { result ≡ alone job given.now }
    ensures same { IfSome result (λ s. s ≡ job) }
{
    if has_run_option(given) || has_other_option(given) {
        return None;
    }
    Some(job)
}

/// What `load` asks for.
fn load(given: &Given) -> Option<Settings>
    ensures value { result ≡ load_given given.now }
    ensures within { IfSome result IsWithin }
{
    if has_run_option(given) || has_table_option(given) {
        return None;
    }
    let seed = number_within(0, GREATEST_SEED, given.seed?)?;
    let size = number_within(1, GREATEST_SIZE, given.size?)?;
    Some(Settings::Load { seed, size })
}

/// The step of `--every` in ps.
fn step(text: &str) -> Option<u64>
    ensures value { result ≡ step_of text.now }
    ensures within { IfSome result IsStep }
{
    match read_time(text.as_bytes()) {
        Ok(time) if 1 <= time => Some(time),
        _ => None,
    }
}

/// The rows that `--every` or `--nth` chooses.
fn choice(given: &Given) -> Option<Choice>
    ensures value { result ≡ choice_for given.now.every given.now.nth }
    ensures within { IfSome result IsChoice }
{
    match (given.every, given.nth) {
        (Some(every), None) => Some(Choice::Every(step(every)?)),
        (None, Some(nth)) => Some(Choice::Nth(number_within(1, MOST_NTH, nth)?)),
        _ => None,
    }
}

/// What `sample` asks for.
fn sample(given: &Given) -> Option<Settings>
    ensures value { result ≡ sample_given given.now }
    ensures within { IfSome result IsWithin }
{
    if has_run_option(given) || has_load_option(given) {
        return None;
    }
    Some(Settings::Sample(choice(given)?))
}

/// What `stats` asks for.
fn stats(given: &Given) -> Option<Settings>
    ensures value { result ≡ stats_given given.now }
    ensures within { IfSome result IsWithin }
{
    if has_run_option(given) || has_load_option(given) || given.nth.is_some() {
        return None;
    }
    let window = match given.every {
        None => None,
        Some(every) => Some(step(every)?),
    };
    Some(Settings::Stats { window })
}

/// What the texts of the arguments ask for.
#[tactic(auto, unfolding(crate::specs::Jobs::settings_given))]
pub(crate) fn settings_given(given: &Given) -> Option<Settings>
    ensures value { result ≡ settings_given given.now }
    ensures within { IfSome result IsWithin }
{
    let job = given.job?;
    if job == "run" {
        return run(given);
    }
    if job == "drive" {
        return drive(given);
    }
    if job == "save" {
        return save(given);
    }
    if job == "resume" {
        return resume(given);
    }
    if job == "check" {
        return alone(Settings::Check, given);
    }
    if job == "plan" {
        return alone(Settings::Plan, given);
    }
    if job == "load" {
        return load(given);
    }
    if job == "sample" {
        return sample(given);
    }
    if job == "stats" {
        return stats(given);
    }
    None
}
