// Worked examples of exact scores, and of two candidates that the kinds rank differently.
ghost use Rattle.std.specs.Prelude.{◌≡◌, map, Some};
ghost use Rattle.fraction.specs.Fractions.{fraction};
ghost use Rattle.examples.specs.Scores.{table, ExactScores, RankedDifferently};

use fraction::Fraction;
use rounded::Rounded;
use score::{Points, ScoreKind, first_greatest};

// The fractions that the examples settle to: 280 / 60, which is 14 / 3, and three that are 6.
pub fn exact_scores() -> [Fraction; 4]
    ensures value { result ≡ map (λ e. fraction e.points) table }
    ensures exact { ExactScores }
{
    [
        Points {
            h: 14,
            t: 30,
            l: 10,
        },
        Points {
            h: -12,
            t: 20,
            l: 40,
        },
        Points {
            h: 30,
            t: 20,
            l: 12,
        },
        Points { h: 12, t: 20, l: 0 },
    ]
    .map(Fraction::settle)
}

// The first greatest of the candidates (30, 20, 12) and (12, 20, 0), by the rounded and by the fraction kind: both are exactly 6.
pub fn greatest_of_two() -> (Option<usize>, Option<usize>)
    ensures value { result ≡ (Some 1, Some 0) }
    ensures ranked { RankedDifferently }
{
    let linked = Points {
        h: 30,
        t: 20,
        l: 12,
    };
    let plain = Points { h: 12, t: 20, l: 0 };
    let candidates = [linked, plain];
    let rounded = first_greatest(&candidates.map(Rounded::settle));
    let exact = first_greatest(&candidates.map(Fraction::settle));
    (rounded, exact)
}
