//! The command, and the texts that words give its arguments.

ghost use Rattle.std.specs.Prelude.{◌≡◌, ◌≢◌, Err, IfOk, option_map, true, false};
ghost use Rattle.clap.specs.Values.{kind_of};
ghost use Rattle.clap.specs.Matches.{found_of};
ghost use Rattle.clap.specs.Simple.{app_of, matches_of, with_rule};
ghost use Rattle.clap.specs.Walk.{rows_of};
ghost use Rattle.clap.specs.declared.error.kind.ErrorKind.TheVariants.{OutOfMemory};
ghost use Rattle.tdf_cli_words.specs.Command.{are_matched, command, given_of, option};
ghost use Rattle.tdf_cli_words.specs.Words.{texts_of};
ghost use Rattle.tdf_cli_words.specs.declared.asked.WordsErr.TheVariants.{Memory, Usage};

use crate::asked::WordsErr;
use clap::error::ErrorKind;
use clap::{Arg, ArgMatches, Command, Error};
use std::alloc::{AllocError, Global};
use std::marker::Model;

/// The texts of the command's arguments.
#[derive(Drop)]
pub(crate) struct Given<'a> {
    pub(crate) job: Option<&'a str>,
    pub(crate) stop: Option<&'a str>,
    pub(crate) format: Option<&'a str>,
    pub(crate) turns: Option<&'a str>,
    pub(crate) part: Option<&'a str>,
    pub(crate) seed: Option<&'a str>,
    pub(crate) size: Option<&'a str>,
    pub(crate) every: Option<&'a str>,
    pub(crate) nth: Option<&'a str>,
}

impl<'a> Model for Given<'a> {
    ghost use Rattle.std.specs.Prelude.{option_map};
    ghost use Rattle.tdf_cli_words.specs.Command.{Given};

    ghost Value = { Given };

    ghost view = { λ a. record {
      job = option_map (λ s. s.now) a.job;
      stop = option_map (λ s. s.now) a.stop;
      format = option_map (λ s. s.now) a.format;
      turns = option_map (λ s. s.now) a.turns;
      part = option_map (λ s. s.now) a.part;
      seed = option_map (λ s. s.now) a.seed;
      size = option_map (λ s. s.now) a.size;
      every = option_map (λ s. s.now) a.every;
      nth = option_map (λ s. s.now) a.nth;
    } };
}

/// A command with one more option.
fn with_option<'a>(
    alloc: Global,
    command: Command<'a>,
    name: &'a str,
) -> Result<Command<'a>, AllocError>
    ensures { IfOk result (λ c. app_of c ≡ with_rule (app_of command.entry) (option name.entry.now)) }
{
    command.arg(Arg::new(alloc, name).long(name))
}

/// The command.
fn make_command<'a>(alloc: Global) -> Result<Command<'a>, AllocError>
    ensures { IfOk result (λ c. app_of c ≡ command) }
{
    let command = Command::new(alloc, "tdf")
        .no_binary_name(true)
        .arg(Arg::new(alloc, "JOB"))?;
    let command = with_option(alloc, command, "stop")?;
    let command = with_option(alloc, command, "format")?;
    let command = with_option(alloc, command, "turns")?;
    let command = with_option(alloc, command, "part")?;
    let command = with_option(alloc, command, "seed")?;
    let command = with_option(alloc, command, "size")?;
    let command = with_option(alloc, command, "every")?;
    with_option(alloc, command, "nth")
}

/// Why the words have no matches.
fn refusal(error: &Error) -> WordsErr
    ensures usage { result ≡ Usage → kind_of error.now ≢ OutOfMemory }
    ensures memory { result ≡ Memory → kind_of error.now ≡ OutOfMemory }
{
    match error.kind() {
        ErrorKind::OutOfMemory => WordsErr::Memory,
        _ => WordsErr::Usage,
    }
}

/// The matches of the words.
fn matches<'a>(alloc: Global, words: &'a [String]) -> Result<ArgMatches<'a>, WordsErr>
    ensures matched { IfOk result (λ m. are_matched (texts_of words.entry.now) ≡ true) }
    ensures rows { IfOk result (λ m. rows_of (found_of m)
        ≡ matches_of command (texts_of words.entry.now)) }
    ensures usage { result ≡ Err Usage → are_matched (texts_of words.entry.now) ≡ false }
{
    match make_command(alloc)?.try_get_matches_from(words) {
        Ok(matches) => Ok(matches),
        Err(error) => {
            let why = refusal(&error);
            drop(error);
            Err(why)
        }
    }
}

/// The texts that the words give the command's arguments.
pub(crate) fn read_texts<'a>(alloc: Global, words: &'a [String]) -> Result<Given<'a>, WordsErr>
    ensures matched { IfOk result (λ g. are_matched (texts_of words.entry.now) ≡ true) }
    ensures texts { IfOk result (λ g. g ≡ given_of (texts_of words.entry.now)) }
    ensures usage { result ≡ Err Usage → are_matched (texts_of words.entry.now) ≡ false }
{
    let matches = matches(alloc, words)?;
    Ok(Given {
        job: matches.get_str("JOB"),
        stop: matches.get_str("stop"),
        format: matches.get_str("format"),
        turns: matches.get_str("turns"),
        part: matches.get_str("part"),
        seed: matches.get_str("seed"),
        size: matches.get_str("size"),
        every: matches.get_str("every"),
        nth: matches.get_str("nth"),
    })
}
