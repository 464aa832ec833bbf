// The rounded kind: scores in `f32`, each operation rounded.
#![tactic(auto)]

#[cfg(test)]
mod tests;

ghost use Rattle.std.specs.Prelude.{◌≡◌, T};
ghost use Rattle.std.proofs.Common.{lit≤};
ghost use Rattle.std.specs.Float.{float_is_finite};
ghost use Rattle.score.specs.Ranges.{in_range, in_range_or_zero};
ghost use Rattle.rounded.specs.Roundeds.{rounded, finite_or_zero, greater};
ghost use Rattle.rounded.specs.Compared;
ghost use Rattle.rounded.specs.Close;

use score::{Points, ScoreKind};

// A score rounded to an `f32`. It lies in slices that may hold anything, so it has no invariant: a value that is not finite is taken for 0.
#[derive(Clone, Copy)]
pub struct Rounded {
    pub value: f32,
}

// h / 2 times 1 - l / t, each operation rounded.
fn rounded_value(p: Points) -> f32
    requires { T (in_range p) }
    ensures { result ≡ (rounded p).value }
{
    (p.h as f32 / 2.0) * (1.0 - p.l as f32 / p.t as f32)
}

// The value, or 0 where it is not finite.
fn finite_or_zero(a: Rounded) -> f32
    ensures { result ≡ finite_or_zero a }
{
    if a.value.is_finite() { a.value } else { 0.0 }
}

impl ScoreKind for Rounded {
    const STEP: u16 = 1;

    ghost STEP = { 1 };

    ghost settled = { rounded };

    ghost exceeds = { greater };

    ghost small = { lit≤ tt };

    ghost order = { Compared.order };

    ghost distance = { Close.distance _ (lit≤ tt) };

    fn settle(p: Points) -> Rounded
        ensures value { result ≡ rounded (in_range_or_zero p) }
        ensures finite { T (float_is_finite result.value) }
    {
        Rounded {
            value: rounded_value(p.in_range_or_zero()),
        }
    }

    fn exceeds(self, other: Rounded) -> bool {
        finite_or_zero(other) < finite_or_zero(self)
    }
}
