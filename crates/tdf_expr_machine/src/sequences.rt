//! Many statements as one, so that its parts are nested no deeper than the logarithm of how many there are.

ghost use Rattle.std.specs.Prelude.{◌≡◌, ◌≤◌, ◌-◌, ◌++◌, ◌∷◌, [], IfOk, IfSome, List, None, OnOk, length, take, drop};
ghost use Rattle.tdf_expr_machine.specs.Sequences.{IsSequence};
ghost use Rattle.tdf_expr_machine.specs.declared.acts.Act.{Act as ActOf};

use crate::acts::Act;
use crate::flattening::flat_code;
use std::alloc::Global;
use tdf_base::Memory;

/// The last statement of a list, which loses it.
fn last(list: &mut Vec<Act>) -> Act
    requires { 1 ≤ length list.old.items }
    ensures { list.old.items ≡ list.new.items ++ result ∷ [] }
{
    match list.pop() {
        Some(act) => act,
        None => Act::Skip,
    }
}

/// Two statements as one.
fn both(alloc: Global, first: Act, second: Act) -> Result<Act, Memory>
    ensures { (before after : List ActOf) → IsSequence before first → IsSequence after second
        → IfOk result (λ act. IsSequence (before ++ after) act) }
{
    match Box::new(alloc, first) {
        Ok(first) => joined(alloc, first, second),
        Err(refused) => {
            drop(second);
            Err(Memory::from(refused))
        }
    }
}

/// Two statements as one, the first in a box.
fn joined(alloc: Global, first: Box<Act>, second: Act) -> Result<Act, Memory>
    ensures { (before after : List ActOf) → IsSequence before first.value → IsSequence after second
        → IfOk result (λ act. IsSequence (before ++ after) act) }
{
    match Box::new(alloc, second) {
        Ok(second) => Ok(Act::Seq(first, second)),
        Err(refused) => {
            drop(first);
            Err(Memory::from(refused))
        }
    }
}

/// The last `count` statements of a list as flat code, and the list without them; none, where one of them can't be, and the list as it
/// was.
#[tactic(auto, using(crate::proofs::InOrder::flat_laws))]
fn flat_last(alloc: Global, list: &mut Vec<Act>, count: usize) -> Result<Option<Act>, Memory>
    requires { count ≤ length list.old.items }
    ensures rest { IfOk result (λ found. IfSome found (λ act. list.new.items ≡ take (length list.old.items - count) list.old.items)) }
    ensures act { IfOk result (λ found. IfSome found (IsSequence (drop (length list.old.items - count) list.old.items))) }
    ensures none { IfOk result (λ found. found ≡ None → list.new.items ≡ list.old.items) }
{
    let from = list.len() - count;
    match flat_code(alloc, &list[from..]) {
        Ok(Some(code)) => {
            list.truncate(from);
            Ok(Some(Act::Flat(code)))
        }
        Ok(None) => Ok(None),
        Err(refused) => Err(refused),
    }
}

/// The last `count` statements of a list as one, and the list without them: flat code, where all of them can be.
#[cycle(gather)]
fn gathered(alloc: Global, list: &mut Vec<Act>, count: usize) -> Result<Act, Memory>
    requires { count ≤ length list.old.items }
    ensures rest { OnOk result (list.new.items ≡ take (length list.old.items - count) list.old.items) }
    ensures act { IfOk result (λ act. IsSequence (drop (length list.old.items - count) list.old.items) act) }
{
    match flat_last(alloc, list, count) {
        Ok(Some(act)) => Ok(act),
        Ok(None) => halves(alloc, list, count),
        Err(refused) => Err(refused),
    }
}

/// The same: two halves as one.
#[cycle(gather)]
#[tactic(auto, using(crate::proofs::InOrder::sequence_laws))]
fn halves(alloc: Global, list: &mut Vec<Act>, count: usize) -> Result<Act, Memory>
    requires { count ≤ length list.old.items }
    ensures rest { OnOk result (list.new.items ≡ take (length list.old.items - count) list.old.items) }
    ensures act { IfOk result (λ act. IsSequence (drop (length list.old.items - count) list.old.items) act) }
{
    match count {
        0 => Ok(Act::Skip),
        1 => Ok(last(list)),
        _ => {
            let second = gathered(alloc, list, count / 2)?;
            match gathered(alloc, list, count - count / 2) {
                Ok(first) => both(alloc, first, second),
                Err(refused) => {
                    drop(second);
                    Err(refused)
                }
            }
        }
    }
}

/// Statements in order as one.
pub fn sequence(alloc: Global, list: Vec<Act>) -> Result<Act, Memory>
    ensures { IfOk result (λ act. IsSequence list.items act) }
{
    let mut list = list;
    let count = list.len();
    gathered(alloc, &mut list, count)
}
