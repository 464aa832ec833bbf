// Joins the reference of each line of standard input to the base before it, and prints what becomes of it.
// A line is a base, a tab and a reference; printed are whether the value stays, what joining gives, and the value as written.
#![tactic(auto)]

use address::{Base, join, stays, write_value};
use std::io;
use std::io::{BufRead, BufReader, Write};

// What stands before the first tab, and what stands behind it.
fn at_tab(line: &[u8]) -> (&[u8], &[u8]) {
    match line.iter().position(|b| *b == b'\t') {
        Some(i) => (&line[..i], &line[i + 1..]),
        None => (line, b""),
    }
}

// Prints the buffer's front of the length that was answered, or what stands for no answer.
fn print_front(rt: &HostRuntime, out: &[u8], answer: Option<usize>, none: &[u8]) -> io::Result<()> {
    let front = answer.and_then(|n| out.get(..n));
    rt.stdout().write_all(front.unwrap_or(none))
}

fn print_line(rt: &HostRuntime, base: &mut Base, line: &[u8]) -> io::Result<()> {
    let (bytes, value) = at_tab(line);
    if let Err(e) = base.fill(bytes) {
        return println!(rt; "{e}");
    }
    let mut out = [0; 4049];
    let way = if stays(value) { "stays" } else { "joins" };
    print!(rt; "{way}\t")?;
    let joined = join(base, value, &mut out).ok();
    print_front(rt, &out, joined, b"nothing")?;
    print!(rt; "\t")?;
    let written = write_value(base, value, &mut out);
    print_front(rt, &out, written, b"no room")?;
    println!(rt; "")
}

fn main(rt: HostRuntime) -> io::Result<()> {
    let mut base = Base::new();
    for line in BufReader::new(rt.alloc(), rt.stdin())?.split(rt.alloc(), b'\n') {
        let line = line?;
        print_line(&rt, &mut base, line.as_slice())?;
    }
    Ok(())
}
