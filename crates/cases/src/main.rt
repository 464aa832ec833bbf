// Reads page files, one to a line, and prints what `outline` answers to each. A line is a name, a colon, and pieces of
// the file in hexadecimal, `HEX` or `HEX*COUNT`. Of a long answer the first line and the length are printed.
#![tactic(auto)]

ghost use Rattle.std.specs.Prelude.{◌≡◌, ◌≤◌, length, take};

use anyhow::{Context, anyhow};
use render::outline;
use std::alloc::Global;
use std::io::{BufRead, BufReader, Write};

// No file of the list is longer.
const MOST: usize = 300_000;

// The value of a lower-case hexadecimal digit. The library's `to_digit` takes both cases, and `characters` has upper-case digits only, so each
// program has its own.
fn digit(b: u8) -> Option<u8> {
    match b {
        b'0'..=b'9' => Some(b - b'0'),
        b'a'..=b'f' => Some(b - b'a' + 10),
        _ => None,
    }
}

// The byte of two digits.
fn byte([high, low]: &[u8; 2]) -> Option<u8> {
    Some(digit(*high)? << 4 | digit(*low)?)
}

// The bytes of a hexadecimal number. A digit that is left over at its end is passed over.
fn unhex(heap: Global, text: &str) -> anyhow::Result<Vec<u8>> {
    let (pairs, left) = text.as_bytes().as_chunks::<2>();
    if left.iter().any(|b| digit(*b).is_none()) {
        return Err(anyhow!("a piece is not hexadecimal"));
    }
    pairs
        .iter()
        .map(byte)
        .collect::<Option<Vec<u8>>>(heap)?
        .context("a piece is not hexadecimal")
}

// Appends a piece as often as it says.
fn add(heap: Global, file: &mut Vec<u8>, piece: &str) -> anyhow::Result<()> {
    let (text, count) = match piece.split_once('*') {
        Some((text, count)) => (text, count.parse::<usize>()?),
        None => (piece, 1),
    };
    let bytes = unhex(heap, text)?;
    for _ in 0..count {
        if file.len() > MOST {
            return Err(anyhow!("a file is too long"));
        }
        file.extend_from_slice(bytes.as_slice())?;
    }
    Ok(())
}

// The first line of a text, with its end.
fn first_line(text: &[u8]) -> &[u8]
    ensures inside { length result.now ≤ length text.now }
    ensures front { result.now ≡ take (length result.now) text.now }
{
    match text.iter().position(|b| *b == b'\n') {
        Some(i) => &text[..=i],
        None => text,
    }
}

fn show(rt: &HostRuntime, name: &str, file: &[u8]) -> anyhow::Result<()> {
    println!(rt; "== {name}")?;
    let text = outline(rt.alloc(), file)?;
    if text.len() <= 600 {
        rt.stdout().write_all(text.as_slice())?;
        return Ok(());
    }
    rt.stdout().write_all(first_line(text.as_slice()))?;
    let len = text.len();
    println!(rt; "({len} bytes)")?;
    Ok(())
}

fn main(rt: HostRuntime) -> anyhow::Result<()> {
    for line in BufReader::new(rt.alloc(), rt.stdin())?.lines(rt.alloc()) {
        let line = line?;
        let (name, pieces) = line.split_once(':').context("a line has no colon")?;
        let mut file = Vec::new(rt.alloc());
        for piece in pieces.split_whitespace() {
            add(rt.alloc(), &mut file, piece)?;
        }
        show(&rt, name, file.as_slice())?;
    }
    Ok(())
}
