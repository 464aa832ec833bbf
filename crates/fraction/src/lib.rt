// The fraction kind: exact scores.
#![tactic(auto)]

ghost use Rattle.std.specs.Prelude.{◌≡◌, max, T, pos, ◌*ℤ◌};
ghost use Rattle.score.specs.Ranges.{in_range};
ghost use Rattle.score.specs.Exact.{exact};
ghost use Rattle.fraction.specs.Fractions.{fraction, greater};
ghost use Rattle.fraction.specs.Cross;
ghost use Rattle.std.proofs.Common.{lit≤};

use score::{Points, ScoreKind};

// A score as a fraction, where a denominator of 0 is taken for 1.
#[derive(Clone, Copy)]
pub struct Fraction {
    pub numerator: i64,
    pub denominator: u32,
}

// h (t - l).
fn exact_numerator(p: Points) -> i64
    requires { T (in_range p) }
    ensures { result ≡ exact p }
{
    i64::from(p.h) * (i64::from(p.t) - i64::from(p.l))
}

// A numerator times another's denominator.
fn crossed(numerator: i64, denominator: u32) -> i128
    ensures { result ≡ numerator *ℤ pos (max denominator 1) }
{
    i128::from(numerator) * i128::from(denominator.max(1))
}

impl ScoreKind for Fraction {
    const STEP: u16 = 0;

    ghost STEP = { 0 };

    ghost settled = { fraction };

    ghost exceeds = { greater };

    ghost small = { lit≤ tt };

    ghost order = { Cross.order };

    ghost distance = { Cross.distance };

    fn settle(p: Points) -> Fraction {
        let p = p.in_range_or_zero();
        Fraction {
            numerator: exact_numerator(p),
            denominator: 2 * p.t,
        }
    }

    fn exceeds(self, other: Fraction) -> bool {
        crossed(other.numerator, self.denominator) < crossed(self.numerator, other.denominator)
    }
}
