//! The faults of a body.

ghost use Rattle.std.specs.Prelude.{◌≡◌, OnOk};
ghost use Rattle.tdf_base.specs.First.{least_with};
ghost use Rattle.tdf_lang_tree.specs.Views.{pure_body};
ghost use Rattle.tdf_expr_types.specs.Bodies.{body_faults};

use crate::stmts::check_stmts;
use crate::weights::is_heavy;
use std::alloc::Global;
use tdf_base::{Code, LineFault, Memory, noted};
use tdf_expr_symbols::{Part, Scope};
use tdf_lang_tree::Stmts;

/// Notes the faults of a body: those of its statements, and its weight, which is a fault on the line of its `end`.
///
/// # Errors
/// Out of memory.
#[tactic(auto, using(crate::proofs::Leasts::least_laws), unfolding(crate::specs::Bodies::body_faults))]
pub fn check_body<'t>(
    alloc: Global,
    first: &mut Option<LineFault>,
    scope: &Scope<'_, 't>,
    part: Part,
    body: &'t Stmts,
) -> Result<(), Memory>
    ensures { OnOk result (first.new ≡ least_with first.old
        (body_faults scope.now part (pure_body body.entry.now))) }
{
    let mut loops = Vec::new(alloc);
    let weight = check_stmts(first, scope, part, &mut loops, &body.list)?;
    *first = noted(*first, is_heavy(weight), Code::Heavy, body.end);
    Ok(())
}
