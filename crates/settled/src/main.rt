// Settles the points on each line of standard input, given as h, t and l one after another, at both kinds. Prints the bits of the rounded scores,
// then the first greatest and the top candidate, each at the rounded kind and at the fraction kind.
#![tactic(auto)]

use fraction::Fraction;
use rounded::Rounded;
use score::{Points, ScoreKind, first_greatest, top_candidate};
use std::alloc::{AllocError, Global};
use std::fmt;

// The points of three numbers: h, t and l.
fn point_of(triple: &[i64; 3]) -> anyhow::Result<Points> {
    let [h, t, l] = *triple;
    Ok(Points {
        h: h.try_into()?,
        t: t.try_into()?,
        l: l.try_into()?,
    })
}

// The points on a line. Numbers at its end that make no three are passed over.
fn points_of(heap: Global, line: &str) -> anyhow::Result<Vec<Points>> {
    let numbers: Vec<i64> = line
        .split_whitespace()
        .map(|word| -> anyhow::Result<i64> { Ok(word.parse()?) })
        .try_collect(heap)?;
    let (triples, _) = numbers.as_chunks::<3>();
    triples.iter().map(point_of).try_collect(heap)
}

// An index, or `-`.
#[derive(Drop)]
struct Index(Option<usize>);

impl fmt::Display for Index {
    fn fmt<W: fmt::Write>(&self, f: &mut fmt::Formatter<W>) -> fmt::Result {
        match self.0 {
            Some(i) => write!(f, "{i}"),
            None => write!(f, "-"),
        }
    }
}

// The bits of the rounded score.
fn bits_of(p: Points) -> u32 {
    Rounded::settle(p).value.to_bits()
}

// The points settled at a kind.
fn settle_all<K: ScoreKind>(heap: Global, points: &[Points]) -> Result<Vec<K>, AllocError> {
    points.iter().map(|p| K::settle(*p)).collect(heap)
}

fn show(rt: &HostRuntime, points: &[Points]) -> anyhow::Result<()> {
    for p in points {
        print!(rt; "{:08x} ", bits_of(*p))?;
    }
    let rounded = settle_all::<Rounded>(rt.alloc(), points)?;
    let fractions = settle_all::<Fraction>(rt.alloc(), points)?;
    let a = Index(first_greatest(&rounded));
    let b = Index(first_greatest(&fractions));
    let c = Index(top_candidate(&rounded));
    let d = Index(top_candidate(&fractions));
    println!(rt; "first {a} {b} top {c} {d}")?;
    Ok(())
}

fn main(rt: HostRuntime) -> anyhow::Result<()> {
    for line in rt.lines(rt.alloc()) {
        let line = line?;
        let points = points_of(rt.alloc(), &line)?;
        show(&rt, &points)?;
    }
    Ok(())
}
