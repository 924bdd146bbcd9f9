//! Where a line of a body stands.

ghost use Rattle.std.specs.Option.{option_map};
ghost use Rattle.std.specs.Prelude.{◌≡◌};
ghost use Rattle.tdf_expr_symbols.specs.Seen.{seen};
ghost use Rattle.tdf_expr_types.specs.machine.Sites.{named_at};

use tdf_base::Name;
use tdf_expr_symbols::{OpenLoop, Part, Scope, Thing};

/// The names in force and the loop variables that are open on a line of a body.
#[derive(Clone, Copy)]
pub struct Site<'s, 'g, 't> {
    pub scope: &'s Scope<'g, 't>,
    pub loops: &'s [OpenLoop<'t>],
    pub part: Part,
    pub line: u32,
}

impl<'s, 'g, 't> Site<'s, 'g, 't> {
    /// What a name stands for there.
    pub fn named(&self, name: &Name) -> Option<Thing<'t>>
        ensures { option_map seen result ≡ named_at self.now name.now }
    {
        self.scope.named(self.loops, name.as_bytes())
    }
}
