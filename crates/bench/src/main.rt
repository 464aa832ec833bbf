// Times opening and one walk over every byte, on pages of 512 to 4,096 nodes, flat and 60 deep. Without an argument it
// makes and walks each page once and prints nothing; with one it prints the figures.
#![tactic(auto)]

use anyhow::anyhow;
use page::{NodeKind, Page, Part};
use pagefile::OpenedPage;
use std::alloc::{AllocError, Global};
use std::time::Instant;
use std::{env, iter};
use table::Check;

// Bytes of each text.
const TEXT: u32 = 30;

fn push_u32(file: &mut Vec<u8>, n: u32) -> Result<(), AllocError> {
    file.extend_from_slice(&n.to_le_bytes())
}

fn push_node(
    file: &mut Vec<u8>,
    kind: NodeKind,
    depth: u8,
    start: u32,
    len: u32,
) -> Result<(), AllocError> {
    file.extend_from_slice(&[u8::from(kind), depth, 0, 0])?;
    push_u32(file, 0)?;
    push_u32(file, start)?;
    push_u32(file, len)
}

// A page file of this many nodes: the document, nested elements down to the depth, and texts there.
fn page_file(heap: Global, nodes: u32, depth: u8) -> Result<Vec<u8>, AllocError> {
    let mut file = Vec::new(heap);
    push_u32(&mut file, nodes)?;
    push_node(&mut file, NodeKind::Document, 0, 0, 0)?;
    let mut start = 0u32;
    for d in 1..depth {
        push_node(&mut file, NodeKind::Element, d, 0, 0)?;
    }
    for _ in u32::from(depth)..nodes {
        push_node(&mut file, NodeKind::Text, depth, start, TEXT)?;
        start = start.saturating_add(TEXT);
    }
    push_u32(&mut file, 0)?;
    push_u32(&mut file, start)?;
    file.extend(iter::repeat_n(b'n', start as usize))?;
    Ok(file)
}

// The node after n in document order: its first child, or the next sibling of the first of it and those above that has one.
fn next<P: Page>(p: &P, n: usize) -> Option<usize> {
    p.first_child_of(n).or_else(|| {
        iter::successors(Some(n), |m| p.parent_of(*m))
            .take(64)
            .find_map(|m| p.next_sibling_of(m))
    })
}

// The sum of a part's bytes. As a chain of `map` and `fold` the walk took two fifths longer, so it is a loop.
fn part_sum<P: Page>(p: &P, n: usize, part: Part) -> u64 {
    let mut sum = 0u64;
    for i in 0..p.len_of(n, part) {
        sum = sum.wrapping_add(u64::from(p.byte_of(n, part, i)));
    }
    sum
}

// The sum of a node's bytes. With `flat_map` over the parts the walk was a tenth slower, so it is a loop.
fn node_sum<P: Page>(p: &P, n: usize) -> u64 {
    let mut sum = part_sum(p, n, Part::Content);
    for j in 0..p.attrs_of(n) {
        sum = sum.wrapping_add(part_sum(p, n, Part::Name(j)));
        sum = sum.wrapping_add(part_sum(p, n, Part::Value(j)));
    }
    sum
}

// The sum of all bytes, by walking in document order. With `successors` the walk was a tenth slower, so it is a loop.
fn page_sum<P: Page>(p: &P) -> u64 {
    let mut sum = 0u64;
    let mut at = Some(p.root());
    for _ in 0..p.bound() {
        let Some(n) = at else {
            break;
        };
        sum = sum.wrapping_add(node_sum(p, n));
        at = next(p, n);
    }
    sum
}

// Opens a file and answers how many nodes it has.
fn open_once(file: &[u8]) -> Result<usize, Check> {
    let mut page = OpenedPage::new();
    page.open(file)?;
    Ok(page.bound())
}

// Nanoseconds of one opening. As one function with `time_walk`, over a closure, its loop did not prove without an invariant of the closure.
fn time_open(rt: &HostRuntime, file: &[u8], turns: u64) -> anyhow::Result<u128> {
    let start = Instant::now(rt)?;
    for _ in 0..turns {
        open_once(file).map_err(|_| anyhow!("a page was refused"))?;
    }
    Ok(start.elapsed(rt)?.as_nanos() / u128::from(turns.max(1)))
}

// Nanoseconds of one walk, and what it summed up.
fn time_walk(rt: &HostRuntime, file: &[u8], turns: u64) -> anyhow::Result<(u128, u64)> {
    let mut page = OpenedPage::new();
    let _ = page.open(file);
    let start = Instant::now(rt)?;
    let mut sum = 0u64;
    for _ in 0..turns {
        sum = sum.wrapping_add(page_sum(&page));
    }
    Ok((
        start.elapsed(rt)?.as_nanos() / u128::from(turns.max(1)),
        sum,
    ))
}

// Times one page, and prints its line if asked to.
fn time(rt: &HostRuntime, name: &str, nodes: u32, depth: u8, prints: bool) -> anyhow::Result<()> {
    let turns = if prints { 2000 } else { 1 };
    let file = page_file(rt.alloc(), nodes, depth)?;
    let open = time_open(rt, file.as_slice(), turns)?;
    let (walk, sum) = time_walk(rt, file.as_slice(), turns)?;
    if prints {
        let bytes = file.len();
        println!(rt;
            "{name} {nodes} nodes, file of {bytes} bytes: open {open} ns, walk {walk} ns, sum {sum}"
        )?;
    }
    Ok(())
}

fn main(rt: HostRuntime) -> anyhow::Result<()> {
    let prints = env::args(&rt)?.count() > 1;
    for nodes in [512, 1024, 2048, 4096] {
        time(&rt, "flat", nodes, 1, prints)?;
        time(&rt, "deep", nodes, 60, prints)?;
    }
    Ok(())
}
