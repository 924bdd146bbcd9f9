//! Where an indexed element stands.

ghost use Rattle.std.specs.Prelude.{◌≡◌, ◌≤◌, ◌+◌, ◌-◌, ◌*◌};
ghost use Rattle.tdf_expr_machine.specs.Nodes.{IsSpot, spot_place};

/// The place of an element or a sample.
#[derive(Clone, Copy)]
pub enum Spot {
    /// This place.
    Fixed(u32),
    /// `at + times * variable - less`, the variable by its depth.
    Rise {
        at: u32,
        times: u32,
        variable: u32,
        less: u32,
    },
    /// `at - variable`, the variable by its depth.
    Fall {
        at: u32,
        variable: u32,
    },
}

/// `at + times * turn - less`.
#[inline]
fn risen(at: u32, times: u32, turn: u32, less: u32) -> usize
    requires { less ≤ at + times * turn }
    ensures { result ≡ at + times * turn - less }
{
    at as usize + times as usize * turn as usize - less as usize
}

/// The place that a spot names at these loop variables, outermost first.
#[inline]
pub(crate) fn place(spot: Spot, loops: &[u32]) -> usize
    requires { IsSpot spot loops.now }
    ensures { result ≡ spot_place spot loops.now }
{
    match spot {
        Spot::Fixed(at) => at as usize,
        Spot::Rise {
            at,
            times,
            variable,
            less,
        } => risen(at, times, loops[variable as usize], less),
        Spot::Fall { at, variable } => at as usize - loops[variable as usize] as usize,
    }
}
