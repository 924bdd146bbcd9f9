//! Casts that are a cut between two bounds.

ghost use Rattle.std.specs.Prelude.{◌≡◌, ◌≢◌, ◌≤◌, ◌-◌, IfSome, IsSome};
ghost use Rattle.tdf_expr_flat.specs.Flat.{IsBoundedCut};
ghost use Rattle.tdf_fixed.specs.Cast.{fraction_of};
ghost use Rattle.tdf_fixed.specs.Overflow.{least, most};
ghost use Rattle.tdf_fixed.specs.declared.over.Over.TheVariants.{SatSym};
ghost use Rattle.tdf_fixed.specs.declared.quant.Quant.TheVariants.{Trn};

use crate::steps::Fit;
use tdf_expr_cuts::cut_of;
use tdf_fixed::Format;

/// The least and the greatest number of so many bits.
#[tactic(auto, using(crate::proofs::Bounds::bound_laws))]
fn bounds(signed: bool, wl: u32) -> (i64, i64)
    requires { (1 ≤ wl) × (wl ≤ 62) }
    ensures least { result.0 ≡ least signed wl }
    ensures most { result.1 ≡ most signed wl }
{
    if signed {
        let half = 1i64 << (wl - 1);
        (-half, half - 1)
    } else {
        let size = 1i64 << wl;
        (0, size - 1)
    }
}

/// The cast of a number that has so many fraction bits into a format, where that cuts last bits off.
pub fn fit_of(frac: u32, format: &Format) -> Option<Fit>
    ensures frac { IfSome result (λ fit. fit.frac ≡ frac) }
    ensures format { IfSome result (λ fit. fit.format ≡ format.now) }
    ensures cut { IfSome result IsBoundedCut }
    ensures found { format.now.over ≢ SatSym → format.now.wl ≤ 62 → fraction_of format.now ≤ frac
        → frac - fraction_of format.now ≤ 62 → format.now.quant ≡ Trn → IsSome result }
{
    let cut = cut_of(frac, format)?;
    let (least, most) = bounds(cut.signed, cut.wl);
    Some(Fit {
        frac,
        format: *format,
        shift: cut.shift,
        least,
        most,
    })
}
