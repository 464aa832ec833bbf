// Reads a page file from standard input and prints the figures of its elements, or the refusal.
#![tactic(auto)]

use figures::points;
use render::read_file;
use std::io;
use std::io::Write;

fn main(rt: HostRuntime) -> io::Result<()> {
    let file = read_file(rt.alloc(), rt.stdin())?;
    let text = points(rt.alloc(), file.as_slice())?;
    rt.stdout().write_all(text.as_slice())
}
