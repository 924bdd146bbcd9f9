//! The parts of a snapshot, written.

ghost use Rattle.std.specs.List.{flat_map};
ghost use Rattle.std.specs.Prelude.{◌≡◌, ◌++◌, [], OnOk, codes, length, map, slice_index_or, take};
ghost use Rattle.tdf_save.specs.Text.{accept_word, saved_block, saved_cluster, each_text, saved_edge, saved_kernel, saved_module, saved_pending, saved_value};

use crate::members::{BlockMembers, ClusterMembers, Members, ModuleMembers};
use crate::words::{push_numbers_line, push_pair, push_path_line, push_two_numbers};
use itoa::Buffer;
use tdf_base::Memory;
use tdf_saved::{ClusterState, KernelState, ModuleState, Pending};

fn accept_word(accept: bool) -> &'static [u8]
    ensures { result.now ≡ accept_word accept }
{
    if accept { b"1" } else { b"0" }
}

#[tactic(auto, using(crate::proofs::PartTexts::part_laws), unfolding(crate::specs::Text::saved_module))]
fn push_module(out: &mut Vec<u8>, member: &ModuleMembers, state: &ModuleState) -> Result<(), Memory>
    ensures ok { OnOk result (out.new.items ≡ out.old.items ++ saved_module member.now state.now) }
    ensures kept { take (length out.old.items) out.new.items ≡ out.old.items }
{
    push_pair(out, b"module", &member.path, accept_word(state.accept))?;
    push_numbers_line(out, b"rates", &state.rates)?;
    push_numbers_line(out, b"steps", &state.steps)?;
    push_numbers_line(out, b"cells", &state.cells)
}

#[tactic(auto, using(crate::proofs::Each::each_laws))]
fn push_modules(
    out: &mut Vec<u8>,
    members: &[ModuleMembers],
    states: &[ModuleState],
) -> Result<(), Memory>
    ensures ok { OnOk result (out.new.items ≡ out.old.items
        ++ each_text saved_module members.now states.now) }
    ensures kept { take (length out.old.items) out.new.items ≡ out.old.items }
{
    for k in 0..members.len().min(states.len()) {
        push_module(out, &members[k], &states[k])?;
    }
    Ok(())
}

#[tactic(auto, unfolding(crate::specs::Text::saved_edge))]
fn push_edge(out: &mut Vec<u8>, path: &[u8], nums: &[i128]) -> Result<(), Memory>
    ensures ok { OnOk result (out.new.items ≡ out.old.items ++ saved_edge path.now nums.now) }
    ensures kept { take (length out.old.items) out.new.items ≡ out.old.items }
{
    push_path_line(out, b"edge", path, nums)
}

#[tactic(auto, using(crate::proofs::Each::each_laws))]
fn push_edges(out: &mut Vec<u8>, paths: &[Vec<u8>], lists: &[Vec<i128>]) -> Result<(), Memory>
    ensures ok { OnOk result (out.new.items ≡ out.old.items
        ++ each_text saved_edge (map (λ p. p.items) paths.now) (map (λ l. l.items) lists.now)) }
    ensures kept { take (length out.old.items) out.new.items ≡ out.old.items }
{
    for k in 0..paths.len().min(lists.len()) {
        push_edge(out, &paths[k], &lists[k])?;
    }
    Ok(())
}

#[tactic(auto, using(crate::proofs::PartTexts::part_laws), unfolding(crate::specs::Text::saved_cluster))]
fn push_cluster(
    out: &mut Vec<u8>,
    member: &ClusterMembers,
    state: &ClusterState,
) -> Result<(), Memory>
    ensures ok { OnOk result (out.new.items ≡ out.old.items ++ saved_cluster member.now state.now) }
    ensures kept { take (length out.old.items) out.new.items ≡ out.old.items }
{
    push_two_numbers(out, b"cluster", u64::from(member.number), state.start)?;
    push_modules(out, &member.modules, &state.modules)?;
    push_edges(out, &member.edges, &state.edges)
}

#[tactic(auto, using(crate::proofs::Each::each_laws))]
pub(crate) fn push_clusters(
    out: &mut Vec<u8>,
    members: &[ClusterMembers],
    states: &[ClusterState],
) -> Result<(), Memory>
    ensures ok { OnOk result (out.new.items ≡ out.old.items
        ++ each_text saved_cluster members.now states.now) }
    ensures kept { take (length out.old.items) out.new.items ≡ out.old.items }
{
    for k in 0..members.len().min(states.len()) {
        push_cluster(out, &members[k], &states[k])?;
    }
    Ok(())
}

#[tactic(auto, unfolding(crate::specs::Text::saved_value))]
fn push_value(out: &mut Vec<u8>, path: &[u8], num: &i128) -> Result<(), Memory>
    ensures ok { OnOk result (out.new.items ≡ out.old.items ++ saved_value path.now num.now) }
    ensures kept { take (length out.old.items) out.new.items ≡ out.old.items }
{
    push_pair(out, b"value", path, Buffer::new().format(*num).as_bytes())
}

#[tactic(auto, using(crate::proofs::Each::each_laws))]
fn push_values(out: &mut Vec<u8>, paths: &[Vec<u8>], nums: &[i128]) -> Result<(), Memory>
    ensures ok { OnOk result (out.new.items ≡ out.old.items
        ++ each_text saved_value (map (λ p. p.items) paths.now) nums.now) }
    ensures kept { take (length out.old.items) out.new.items ≡ out.old.items }
{
    for k in 0..paths.len().min(nums.len()) {
        push_value(out, &paths[k], &nums[k])?;
    }
    Ok(())
}

#[tactic(auto, unfolding(crate::specs::Text::saved_block))]
fn push_block(out: &mut Vec<u8>, member: &BlockMembers, nums: &[i128]) -> Result<(), Memory>
    ensures ok { OnOk result (out.new.items ≡ out.old.items ++ saved_block member.now nums.now) }
    ensures kept { take (length out.old.items) out.new.items ≡ out.old.items }
{
    push_path_line(out, b"block", &member.path, nums)
}

#[tactic(auto, using(crate::proofs::Each::each_laws))]
fn push_blocks(
    out: &mut Vec<u8>,
    members: &[BlockMembers],
    lists: &[Vec<i128>],
) -> Result<(), Memory>
    ensures ok { OnOk result (out.new.items ≡ out.old.items
        ++ each_text saved_block members.now (map (λ l. l.items) lists.now)) }
    ensures kept { take (length out.old.items) out.new.items ≡ out.old.items }
{
    for k in 0..members.len().min(lists.len()) {
        push_block(out, &members[k], &lists[k])?;
    }
    Ok(())
}

fn event_name<'t>(events: &'t [Vec<u8>], event: u32) -> &'t [u8]
    ensures { result.now ≡ slice_index_or (map (λ e. e.items) events.entry.now) event [] }
{
    match events.get(event as usize) {
        Some(name) => name.as_slice(),
        None => b"",
    }
}

#[tactic(auto, unfolding(crate::specs::Text::saved_pending))]
fn push_notice(out: &mut Vec<u8>, events: &[Vec<u8>], pending: &Pending) -> Result<(), Memory>
    ensures ok { OnOk result (out.new.items ≡ out.old.items
        ++ saved_pending (map (λ e. e.items) events.now) pending.now) }
    ensures kept { take (length out.old.items) out.new.items ≡ out.old.items }
{
    let name = event_name(events, pending.event);
    push_pair(
        out,
        b"pending",
        name,
        Buffer::new().format(pending.time).as_bytes(),
    )
}

#[tactic(auto, using(crate::proofs::Each::item_laws))]
fn push_pending(out: &mut Vec<u8>, events: &[Vec<u8>], pending: &[Pending]) -> Result<(), Memory>
    ensures ok { OnOk result (out.new.items ≡ out.old.items
        ++ flat_map (saved_pending (map (λ e. e.items) events.now)) pending.now) }
    ensures kept { take (length out.old.items) out.new.items ≡ out.old.items }
{
    for k in 0..pending.len() {
        push_notice(out, events, &pending[k])?;
    }
    Ok(())
}

#[tactic(auto, using(crate::proofs::PartTexts::part_laws), unfolding(crate::specs::Text::saved_kernel))]
pub(crate) fn push_kernel(
    out: &mut Vec<u8>,
    members: &Members,
    state: &KernelState,
) -> Result<(), Memory>
    ensures ok { OnOk result (out.new.items ≡ out.old.items ++ saved_kernel members.now state.now) }
    ensures kept { take (length out.old.items) out.new.items ≡ out.old.items }
{
    push_values(out, &members.values, &state.values)?;
    push_blocks(out, &members.blocks, &state.blocks)?;
    push_pending(out, &members.events, &state.pending)
}
