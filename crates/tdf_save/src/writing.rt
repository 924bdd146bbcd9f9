//! The text of a snapshot, written.

ghost use Rattle.std.specs.Prelude.{◌≡◌, ◌++◌, OnErr, OnOk, length, take};
ghost use Rattle.tdf_save.specs.Text.{kind_word, saved_head, saved_model, saved_text};

use crate::columns::push_columns;
use crate::members::Members;
use crate::parts::{push_clusters, push_kernel};
use crate::words::{push_line, push_three_numbers};
use itoa::Buffer;
use tdf_base::{Memory, push_word};
use tdf_saved::Snapshot;

fn kind_word(vcd: bool) -> &'static [u8]
    ensures { result.now ≡ kind_word vcd }
{
    if vcd { b"vcd" } else { b"table" }
}

#[tactic(auto, using(crate::proofs::PartTexts::part_laws), unfolding(crate::specs::Text::saved_head))]
fn push_head(out: &mut Vec<u8>, snapshot: &Snapshot) -> Result<(), Memory>
    ensures ok { OnOk result (out.new.items ≡ out.old.items ++ saved_head snapshot.now) }
    ensures kept { take (length out.old.items) out.new.items ≡ out.old.items }
{
    push_line(out, b"saved", b"1")?;
    push_line(out, b"kind", kind_word(snapshot.vcd))?;
    push_three_numbers(out, b"run", snapshot.time, snapshot.used, snapshot.budget)
}

#[tactic(auto, using(crate::proofs::PartTexts::part_laws), unfolding(crate::specs::Text::saved_model))]
fn push_model(out: &mut Vec<u8>, text: &[u8]) -> Result<(), Memory>
    ensures ok { OnOk result (out.new.items ≡ out.old.items ++ saved_model text.now) }
    ensures kept { take (length out.old.items) out.new.items ≡ out.old.items }
{
    push_line(out, b"text", Buffer::new().format(text.len()).as_bytes())?;
    push_word(out, text)
}

#[tactic(auto, using(crate::proofs::PartTexts::part_laws), unfolding(crate::specs::Text::saved_text))]
fn push_parts(
    out: &mut Vec<u8>,
    members: &Members,
    text: &[u8],
    snapshot: &Snapshot,
) -> Result<(), Memory>
    ensures ok { OnOk result (out.new.items ≡ out.old.items
        ++ saved_text members.now text.now snapshot.now) }
    ensures kept { take (length out.old.items) out.new.items ≡ out.old.items }
{
    push_head(out, snapshot)?;
    push_clusters(out, &members.clusters, &snapshot.clusters)?;
    push_kernel(out, members, &snapshot.kernel)?;
    push_columns(out, &members.columns, &snapshot.columns)?;
    push_model(out, text)
}

/// Appends the text of a snapshot of a model with these members and this text.
///
/// # Errors
/// Out of memory; the text is as it was then.
pub fn push_snapshot(
    out: &mut Vec<u8>,
    members: &Members,
    text: &[u8],
    snapshot: &Snapshot,
) -> Result<(), Memory>
    ensures whole { OnOk result (out.new.items ≡ out.old.items
        ++ saved_text members.now text.now snapshot.now) }
    ensures kept { OnErr result (out.new.items ≡ out.old.items) }
{
    let start = out.len();
    match push_parts(out, members, text, snapshot) {
        Ok(()) => Ok(()),
        Err(refused) => {
            out.truncate(start);
            Err(refused)
        }
    }
}
