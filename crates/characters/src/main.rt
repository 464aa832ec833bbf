// Reads byte sequences in hexadecimal, one to a line, and prints of each whether it is well-formed UTF-8, how many
// characters it has before the first place where none begins, and its first character with the bytes that it takes.
#![tactic(auto)]

use std::io;
use std::io::Read;
use utf8::{count_chars, decode, well_formed};

// The value of an upper-case hexadecimal digit. The library's `to_digit` takes both cases, and `cases` has lower-case digits only, so each
// program has its own.
fn digit(b: u8) -> Option<u8> {
    match b {
        b'0'..=b'9' => Some(b - b'0'),
        b'A'..=b'F' => Some(b - b'A' + 10),
        _ => None,
    }
}

fn show(rt: &impl Print, bytes: &[u8]) -> io::Result<()> {
    let word = if well_formed(bytes) {
        "well-formed"
    } else {
        "ill-formed"
    };
    let count = count_chars(bytes);
    match decode(bytes) {
        Some((c, w)) => println!(rt; "{word} {count} U+{:04X} {w}", u32::from(c)),
        None => println!(rt; "{word} {count} none"),
    }
}

fn main(rt: HostRuntime) -> io::Result<()> {
    let mut input = Vec::new(rt.alloc());
    let _n = rt.stdin().read_to_end(&mut input)?;
    let mut bytes = Vec::new(rt.alloc());
    // the first digit of a byte, kept until the second comes: what stands between is passed over, the ends of lines too
    let mut high = None;
    for b in input.as_slice() {
        match (digit(*b), high.take()) {
            (Some(d), None) => high = Some(d),
            (Some(d), Some(h)) => bytes.push(h << 4 | d)?,
            (None, h) => {
                high = h;
                if *b == b'\n' {
                    show(&rt, bytes.as_slice())?;
                    bytes.clear();
                }
            }
        }
    }
    Ok(())
}
