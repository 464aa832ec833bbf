// A score kind: how points are settled to a score, and when one score exceeds another.
ghost use Rattle.std.specs.Prelude.{◌≡◌, ℕ, ◌<◌, Bool};
ghost use Rattle.score.specs.declared.points.Points.{Points};
ghost use Rattle.score.specs.Ranges.{in_range_or_zero};
ghost use Rattle.score.specs.Laws.{Order, Distance};

use crate::points::Points;

// A type is a score kind if its values are settled scores.
pub trait ScoreKind: Copy {
    // The distance step.
    const STEP: u16;

    // the constant, for the contracts and the laws
    ghost STEP: { ℕ };

    ghost settled: { Points → Self };

    ghost exceeds: { Self → Self → Bool };

    // The distance step, for code that is generic over the kind.
    fn distance_step() -> u16
        ensures { result ≡ STEP }
    {
        Self::STEP
    }

    fn settle(p: Points) -> Self
        ensures { result ≡ settled (in_range_or_zero p) };

    // Not PartialOrd: its laws want == wherever neither exceeds, as at 6 / 1 and 12 / 2, so each kind would write == by hand too.
    fn exceeds(self, other: Self) -> bool
        ensures { result ≡ exceeds self other };

    ghost small: { STEP < 1024 };

    ghost order: { Order exceeds };

    ghost distance: { Distance STEP settled exceeds };
}
