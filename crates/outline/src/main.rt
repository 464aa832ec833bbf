// Reads a page file from standard input and prints its tree, or the refusal.
#![tactic(auto)]

use render::{outline, read_file};
use std::io;
use std::io::Write;

fn main(rt: HostRuntime) -> io::Result<()> {
    let file = read_file(rt.alloc(), rt.stdin())?;
    let text = outline(rt.alloc(), file.as_slice())?;
    rt.stdout().write_all(text.as_slice())
}
