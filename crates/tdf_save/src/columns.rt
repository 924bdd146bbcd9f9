//! The columns of a snapshot, written.

ghost use Rattle.std.specs.Fmt.{signed_decimal};
ghost use Rattle.std.specs.List.{flat_map};
ghost use Rattle.std.specs.Prelude.{◌≡◌, ◌++◌, ◌∷◌, [], OnOk, codes, length, map, take};
ghost use Rattle.tdf_save.specs.Text.{carry_word, saved_column, each_text, saved_later, saved_sample, saved_line};

use crate::words::{push_line, push_pair};
use itoa::Buffer;
use tdf_base::Memory;
use tdf_saved::{ColumnState, Stamp};

#[tactic(auto, unfolding(crate::specs::Text::saved_sample))]
fn push_sample(out: &mut Vec<u8>, stamp: &Stamp) -> Result<(), Memory>
    ensures ok { OnOk result (out.new.items ≡ out.old.items ++ saved_sample stamp.now) }
    ensures kept { take (length out.old.items) out.new.items ≡ out.old.items }
{
    push_pair(
        out,
        b"sample",
        Buffer::new().format(stamp.time).as_bytes(),
        Buffer::new().format(stamp.num).as_bytes(),
    )
}

#[tactic(auto, using(crate::proofs::Each::item_laws))]
fn push_samples(out: &mut Vec<u8>, stamps: &[Stamp]) -> Result<(), Memory>
    ensures ok { OnOk result (out.new.items ≡ out.old.items ++ flat_map saved_sample stamps.now) }
    ensures kept { take (length out.old.items) out.new.items ≡ out.old.items }
{
    for k in 0..stamps.len() {
        push_sample(out, &stamps[k])?;
    }
    Ok(())
}

#[tactic(auto, unfolding(crate::specs::Text::saved_later))]
fn push_later(out: &mut Vec<u8>, num: &i128) -> Result<(), Memory>
    ensures ok { OnOk result (out.new.items ≡ out.old.items ++ saved_later num.now) }
    ensures kept { take (length out.old.items) out.new.items ≡ out.old.items }
{
    push_line(out, b"later", Buffer::new().format(*num).as_bytes())
}

#[tactic(auto, using(crate::proofs::Each::item_laws))]
fn push_laters(out: &mut Vec<u8>, nums: &[i128]) -> Result<(), Memory>
    ensures ok { OnOk result (out.new.items ≡ out.old.items ++ flat_map saved_later nums.now) }
    ensures kept { take (length out.old.items) out.new.items ≡ out.old.items }
{
    for k in 0..nums.len() {
        push_later(out, &nums[k])?;
    }
    Ok(())
}

fn push_title(out: &mut Vec<u8>, label: &[u8], carry: &Option<i128>) -> Result<(), Memory>
    ensures ok { OnOk result (out.new.items ≡ out.old.items
        ++ saved_line (codes "column") (label.now ∷ (carry_word carry.now ∷ []))) }
    ensures kept { take (length out.old.items) out.new.items ≡ out.old.items }
{
    match carry {
        None => push_pair(out, b"column", label, b"-"),
        Some(num) => push_pair(out, b"column", label, Buffer::new().format(*num).as_bytes()),
    }
}

#[tactic(auto, using(crate::proofs::PartTexts::part_laws), unfolding(crate::specs::Text::saved_column))]
fn push_column(out: &mut Vec<u8>, label: &[u8], state: &ColumnState) -> Result<(), Memory>
    ensures ok { OnOk result (out.new.items ≡ out.old.items ++ saved_column label.now state.now) }
    ensures kept { take (length out.old.items) out.new.items ≡ out.old.items }
{
    push_title(out, label, &state.carry)?;
    push_samples(out, &state.samples)?;
    push_laters(out, &state.later)
}

#[tactic(auto, using(crate::proofs::Each::each_laws))]
pub(crate) fn push_columns(
    out: &mut Vec<u8>,
    labels: &[Vec<u8>],
    states: &[ColumnState],
) -> Result<(), Memory>
    ensures ok { OnOk result (out.new.items ≡ out.old.items
        ++ each_text saved_column (map (λ l. l.items) labels.now) states.now) }
    ensures kept { take (length out.old.items) out.new.items ≡ out.old.items }
{
    for k in 0..labels.len().min(states.len()) {
        push_column(out, &labels[k], &states[k])?;
    }
    Ok(())
}
