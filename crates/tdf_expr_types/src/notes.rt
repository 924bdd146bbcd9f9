//! Names of another kind than their place allows.

ghost use Rattle.std.specs.Option.{option_map};
ghost use Rattle.std.specs.Prelude.{◌≡◌};
ghost use Rattle.tdf_base.specs.First.{least_with};
ghost use Rattle.tdf_expr_symbols.specs.Index.{kind_faults};
ghost use Rattle.tdf_expr_symbols.specs.Names.{kind_of};
ghost use Rattle.tdf_expr_symbols.specs.Seen.{seen};

use tdf_base::{Code, LineFault, noted};
use tdf_expr_symbols::{Kind, Place, Thing, is_allowed};

/// The kind of what a name stands for.
fn kind_of(thing: Option<Thing>) -> Option<Kind>
    ensures { result ≡ option_map kind_of (option_map seen thing.entry) }
{
    match thing {
        None => None,
        Some(thing) => Some(thing.kind()),
    }
}

/// Notes where a name is of another kind than its place allows.
#[tactic(auto, using(crate::proofs::Leasts::least_laws), unfolding(tdf_expr_symbols::specs::Index::kind_faults))]
pub fn note_kind(first: &mut Option<LineFault>, place: Place, thing: Option<Thing>, line: u32)
    ensures { first.new ≡ least_with first.old
        (kind_faults place (option_map seen thing.entry) line) }
{
    *first = noted(*first, !is_allowed(place, kind_of(thing)), Code::Kind, line);
}
