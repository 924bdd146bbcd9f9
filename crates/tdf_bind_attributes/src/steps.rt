//! The timesteps of ports, and the attributes of a module.

ghost use Rattle.std.specs.Prelude.{◌≡◌, ◌<◌, false, IfOk, None, Some, length, replicate};
ghost use Rattle.tdf_bind_attributes.specs.Standing.{accepting, last_of, module_step, or_else};
ghost use Rattle.tdf_expr_symbols.specs.Scope.{does_change, is_does};
ghost use Rattle.tdf_bind_attributes.specs.machine.Standing.{put_at, stepped, stepped_all};

use std::alloc::Global;
use tdf_base::Memory;
use tdf_expr_symbols::Scope;
use tdf_lang_tree::Attr;

/// A timestep goes to its place.
fn put(steps: &mut Vec<u64>, place: Option<usize>, step: u64)
    ensures { steps.new.items ≡ put_at place step steps.old.items }
{
    if let Some(place) = place {
        if place < steps.len() {
            steps[place] = step;
        }
    }
}

/// The timesteps of ports after a line.
fn put_line(steps: &mut Vec<u64>, scope: &Scope, attr: &Attr)
    ensures { steps.new.items ≡ stepped scope.now.own attr.now steps.old.items }
{
    match attr {
        Attr::Step {
            port: Some(port),
            step,
            ..
        } => put(steps, scope.own_place(port.as_bytes()), *step),
        _ => {}
    }
}

/// The timestep of each name of a block that is a port, 0 where no line says one.
///
/// # Errors
/// Out of memory.
#[tactic(auto, using(crate::proofs::Stood::step_laws))]
pub(crate) fn port_steps(
    alloc: Global,
    scope: &Scope,
    attrs: &Vec<Attr>,
) -> Result<Vec<u64>, Memory>
    ensures { IfOk result (λ steps. steps.items ≡ stepped_all scope.now.own attrs.now.items
        (replicate (length scope.now.own.things) 0)) }
{
    let mut steps = vec![in alloc; 0; scope.own_len()]?;
    for attr in attrs {
        put_line(&mut steps, scope, attr);
    }
    Ok(steps)
}

fn step_after(step: u64, attr: &Attr) -> u64
    ensures { result ≡ or_else (module_step attr.now) step }
{
    match attr {
        Attr::Step {
            port: None,
            step,
            ..
        } => *step,
        _ => step,
    }
}

/// The timestep of a module, 0 where no line says one.
#[tactic(auto, using(crate::proofs::Stood::module_laws))]
pub(crate) fn module_step(attrs: &Vec<Attr>) -> u64
    ensures { result ≡ last_of module_step 0 attrs.now.items }
{
    let mut step = 0;
    for attr in attrs {
        step = step_after(step, attr);
    }
    step
}

fn accepts_after(accepts: bool, attr: &Attr) -> bool
    ensures { result ≡ or_else (accepting attr.now) accepts }
{
    match attr {
        Attr::Accept { .. } => true,
        Attr::Reject { .. } => false,
        _ => accepts,
    }
}

/// Whether a module accepts changes of attributes.
#[tactic(auto, using(crate::proofs::Stood::accept_laws))]
pub(crate) fn accepts(attrs: &Vec<Attr>) -> bool
    ensures { result ≡ last_of accepting false attrs.now.items }
{
    let mut accepts = false;
    for attr in attrs {
        accepts = accepts_after(accepts, attr);
    }
    accepts
}

fn is_does(attr: &Attr) -> bool
    ensures { result ≡ is_does attr.now }
{
    match attr {
        Attr::Does { .. } => true,
        _ => false,
    }
}

/// Whether a module changes attributes.
pub(crate) fn changes(attrs: &Vec<Attr>) -> bool
    ensures { result ≡ does_change attrs.now.items }
{
    attrs.iter().any(|attr| is_does(attr))
}
