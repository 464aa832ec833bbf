// The first greatest of a slice of scores, for every score kind, and the bound of a choice by it.
ghost use Rattle.std.specs.Prelude.{◌≡◌, length, pos, if◌then◌else◌, MatchOption};
ghost use Rattle.score.specs.Ranges.{integer};
ghost use Rattle.score.specs.Greatest.{first_greatest, top_candidate, FirstGreatest};
ghost use Rattle.score.specs.Choice.{WhereSettled, Bounded, BoundedTop};

use crate::kind::ScoreKind;
use crate::points::Points;

// The later of two scores with their indices if it exceeds the earlier one, else the earlier: of equal scores it stays.
fn greater<K: ScoreKind>(old: (usize, K), new: (usize, K)) -> (usize, K)
    ensures { result ≡ (if K.exceeds new.1 old.1 then new else old) }
{
    if new.1.exceeds(old.1) { new } else { old }
}

// The first index whose score none exceeds.
pub fn first_greatest<K: ScoreKind>(scores: &[K]) -> Option<usize>
    ensures value { result ≡ first_greatest K.exceeds scores.now }
    ensures greatest { MatchOption result (length scores.now ≡ 0) (λ i. FirstGreatest K.exceeds scores.now i) }
    ensures bounded { WhereSettled K.settled scores.now (λ ps. MatchOption result (length ps ≡ 0) (λ i. Bounded K.STEP K.settled K.exceeds ps i)) }
{
    let (index, _) = scores.iter().copied().enumerate().reduce(greater)?;
    Some(index)
}

// Whether the score exceeds the integer score 0.
pub fn exceeds_zero<K: ScoreKind>(score: K) -> bool
    ensures { result ≡ K.exceeds score (K.settled (integer (pos 0))) }
{
    score.exceeds(K::settle(Points::integer(0)))
}

// The first greatest, if it exceeds the integer score 0.
pub fn top_candidate<K: ScoreKind>(scores: &[K]) -> Option<usize>
    ensures value { result ≡ top_candidate K.exceeds (K.settled (integer (pos 0))) scores.now }
    ensures bounded { WhereSettled K.settled scores.now (λ ps. BoundedTop K.STEP K.settled K.exceeds ps result) }
{
    let i = first_greatest(scores)?;
    exceeds_zero(scores[i]).then_some(i)
}
