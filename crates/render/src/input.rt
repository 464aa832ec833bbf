// What a program reads of its input.
ghost use Rattle.std.specs.Prelude.{◌≡◌, take, IfOk, IfSome};

use std::alloc::Global;
use std::io;
use std::io::Read;

// One byte more than the longest page file has, so that what is longer still is refused by the same check.
const MOST: u64 = 262_157;

// The bytes that a page file is opened from: what the reader has, but no more than a file can be refused by.
pub fn read_file<R: Read + Drop>(heap: Global, input: R) -> io::Result<Vec<u8>>
    ensures { IfOk result (λ v. IfSome (R.remaining input) (λ xs. v.items ≡ take 262157 xs)) }
{
    let mut file = Vec::new(heap);
    input.take(MOST).read_to_end(&mut file)?;
    Ok(file)
}
