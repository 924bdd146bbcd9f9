//! The lines of the model.

ghost use Rattle.std.specs.List.{flat_map, range_with_len};
ghost use Rattle.std.specs.Prelude.{◌≡◌, ◌<◌, ◌≤◌, ◌++◌, IfOk, OnOk};
ghost use Rattle.tdf_cli_load.specs.Text.{bound_line, down_block, blocks_text, instance_line, keep_block, load_text, module_at, module_text, signal_line, source_block, top_text, last_trace, types_text, up_block};

use crate::chain::{Kind, Level, next_number};
use std::alloc::Global;
use tdf_base::{Memory, push_number, push_word};

/// Appends the version, and the type of all signals.
#[tactic(auto, unfolding(crate::specs::Text::types_text), using(crate::proofs::Texts::text_laws))]
fn push_types(out: &mut Vec<u8>) -> Result<(), Memory>
    ensures { OnOk result (out.new.items ≡ out.old.items ++ types_text) }
{
    push_word(out, b"language 1\n")?;
    push_word(out, b"type w fixed 32 32\n")
}

/// Appends the block of the source.
#[tactic(auto, unfolding(crate::specs::Text::source_block), using(crate::proofs::Texts::text_laws))]
fn push_source(out: &mut Vec<u8>) -> Result<(), Memory>
    ensures { OnOk result (out.new.items ≡ out.old.items ++ source_block) }
{
    push_word(out, b"tdf src\nout y w\nvar n w\n")?;
    push_word(out, b"set_attributes\ntimestep 1us\nend\n")?;
    push_word(out, b"processing\ny = n\nn = n + 1\nend\nend\n")
}

/// Appends the block `keep`.
#[tactic(auto, unfolding(crate::specs::Text::keep_block), using(crate::proofs::Texts::text_laws))]
fn push_keep(out: &mut Vec<u8>) -> Result<(), Memory>
    ensures { OnOk result (out.new.items ≡ out.old.items ++ keep_block) }
{
    push_word(out, b"tdf keep\nin x w\nout y w\n")?;
    push_word(out, b"processing\ny = x + 1\nend\nend\n")
}

/// Appends the block `up`.
#[tactic(auto, unfolding(crate::specs::Text::up_block), using(crate::proofs::Texts::text_laws))]
fn push_up(out: &mut Vec<u8>) -> Result<(), Memory>
    ensures { OnOk result (out.new.items ≡ out.old.items ++ up_block) }
{
    push_word(out, b"tdf up\nin x w\nout y w\n")?;
    push_word(out, b"set_attributes\nrate y 2\nend\n")?;
    push_word(out, b"processing\ny[0] = x\ny[1] = x + 1\nend\nend\n")
}

/// Appends the block `down`.
#[tactic(auto, unfolding(crate::specs::Text::down_block), using(crate::proofs::Texts::text_laws))]
fn push_down(out: &mut Vec<u8>) -> Result<(), Memory>
    ensures { OnOk result (out.new.items ≡ out.old.items ++ down_block) }
{
    push_word(out, b"tdf down\nin x w\nout y w\n")?;
    push_word(out, b"set_attributes\nrate x 2\nend\n")?;
    push_word(out, b"processing\ny = x[0] + x[1]\nend\nend\n")
}

/// Appends the beginning of the block `top`: the source and its signal.
#[tactic(auto, unfolding(crate::specs::Text::top_text), using(crate::proofs::Texts::text_laws))]
fn push_top(out: &mut Vec<u8>) -> Result<(), Memory>
    ensures { OnOk result (out.new.items ≡ out.old.items ++ top_text) }
{
    push_word(out, b"top\nsignal s0 w\ninstance m0 src\nbind m0.y s0\n")
}

/// Appends all that stands before the modules.
#[tactic(auto, unfolding(crate::specs::Text::blocks_text), using(crate::proofs::Texts::text_laws))]
fn push_head(out: &mut Vec<u8>) -> Result<(), Memory>
    ensures { OnOk result (out.new.items ≡ out.old.items ++ blocks_text) }
{
    push_types(out)?;
    push_source(out)?;
    push_keep(out)?;
    push_up(out)?;
    push_down(out)?;
    push_top(out)
}

/// Appends `signal sK w`.
#[tactic(auto, unfolding(crate::specs::Text::signal_line), using(crate::proofs::Texts::text_laws))]
fn push_signal(out: &mut Vec<u8>, place: u64) -> Result<(), Memory>
    ensures { OnOk result (out.new.items ≡ out.old.items ++ signal_line place) }
{
    push_word(out, b"signal s")?;
    push_number(out, place)?;
    push_word(out, b" w\n")
}

/// Appends `instance mK KIND`.
#[tactic(auto, unfolding(crate::specs::Text::instance_line), using(crate::proofs::Texts::text_laws))]
fn push_instance(out: &mut Vec<u8>, place: u64, kind: Kind) -> Result<(), Memory>
    ensures { OnOk result (out.new.items ≡ out.old.items ++ instance_line place kind) }
{
    push_word(out, b"instance m")?;
    push_number(out, place)?;
    push_word(out, b" ")?;
    push_word(out, kind.word())?;
    push_word(out, b"\n")
}

/// Appends `bind mK.PORT sJ`.
#[tactic(auto, unfolding(crate::specs::Text::bound_line), using(crate::proofs::Texts::text_laws))]
fn push_bound(out: &mut Vec<u8>, place: u64, port: &[u8], signal: u64) -> Result<(), Memory>
    ensures { OnOk result (out.new.items ≡ out.old.items ++ bound_line place port.now signal) }
{
    push_word(out, b"bind m")?;
    push_number(out, place)?;
    push_word(out, b".")?;
    push_word(out, port)?;
    push_word(out, b" s")?;
    push_number(out, signal)?;
    push_word(out, b"\n")
}

/// Appends the lines of module `place`.
#[tactic(auto, unfolding(crate::specs::Text::module_text), using(crate::proofs::Texts::text_laws))]
fn push_module(out: &mut Vec<u8>, place: u64, kind: Kind) -> Result<(), Memory>
    requires { 0 < place }
    ensures { OnOk result (out.new.items ≡ out.old.items ++ module_text place kind) }
{
    push_signal(out, place)?;
    push_instance(out, place, kind)?;
    push_bound(out, place, b"x", place - 1)?;
    push_bound(out, place, b"y", place)
}

/// Appends the lines of all modules.
fn push_modules(out: &mut Vec<u8>, seed: u64, size: u64) -> Result<(), Memory>
    requires { seed ≤ 65536 }
    ensures { OnOk result (out.new.items
        ≡ out.old.items ++ flat_map (module_at seed) (range_with_len 1 size)) }
{
    let mut number = seed;
    let mut level = Level::Low;
    for before in 0..size {
        number = next_number(number);
        let kind = Kind::at(number, level);
        push_module(out, before + 1, kind)?;
        level = level.after(kind);
    }
    Ok(())
}

/// Appends `trace sN last`.
#[tactic(auto, unfolding(crate::specs::Text::last_trace), using(crate::proofs::Texts::text_laws))]
fn push_trace(out: &mut Vec<u8>, size: u64) -> Result<(), Memory>
    ensures { OnOk result (out.new.items ≡ out.old.items ++ last_trace size) }
{
    push_word(out, b"trace s")?;
    push_number(out, size)?;
    push_word(out, b" last\n")
}

/// The text of the model with `size` modules in a chain behind its source, of the kinds that the numbers of `seed` say. Each line
/// ends with a line feed.
///
/// # Errors
/// Out of memory.
#[tactic(auto, unfolding(crate::specs::Text::load_text), using(crate::proofs::Texts::text_laws))]
pub fn load_text(alloc: Global, seed: u64, size: u64) -> Result<Vec<u8>, Memory>
    requires seed { seed ≤ 65536 }
    requires size { size ≤ 500 }
    ensures text { IfOk result (λ text. text.items ≡ load_text seed size) }
{
    let mut text = Vec::new(alloc);
    push_head(&mut text)?;
    push_modules(&mut text, seed, size)?;
    push_word(&mut text, b"end\n")?;
    push_trace(&mut text, size)?;
    Ok(text)
}
