// A reference resolved on a base, into the caller's buffer.
ghost use Rattle.std.specs.Prelude.{◌≡◌, ◌+◌, ◌≤◌, length};
ghost use Rattle.uri.specs.Resolve.{resolved};
ghost use Rattle.uri.specs.Write.{placed, write_answer, resolve_answer, resolve_out, Lawful};

use crate::buffer::Buffer;
use crate::compose::put_target;
use crate::parse::split;
use crate::target::transform;

// As many bytes as base and reference may have, and one more.
const ROOM: usize = 4049;

// Copies the bytes to the buffer's front, and answers how many; nothing where there is no room.
pub fn write_bytes(bytes: &[u8], out: &mut [u8]) -> Option<usize>
    ensures answer { result ≡ write_answer bytes.now (length out.old) }
    ensures out { out.new ≡ placed bytes.now out.old }
{
    let (front, _) = out.split_at_mut_checked(bytes.len())?;
    front.copy_from_slice(bytes);
    Some(bytes.len())
}

// Resolves the reference on the base, in buffers of N bytes.
// The target is made in a buffer of its own, since before its dot segments go it may be longer.
fn resolve_in<const N: usize>(base: &[u8], reference: &[u8], out: &mut [u8]) -> Option<usize>
    requires room { length base.now + 1 + length reference.now ≤ N }
    requires small { N ≤ 4049 }
    ensures answer { result ≡ write_answer (resolved base.now reference.now) (length out.old) }
    ensures out { out.new ≡ placed (resolved base.now reference.now) out.old }
    ensures laws { Lawful base.now reference.now result out.new }
{
    let mut target = Buffer::<N>::new();
    put_target(&mut target, transform(split(base), split(reference)));
    write_bytes(target.as_slice(), out)
}

// Resolves the reference on the base, section 5.2, and writes the target to the buffer's front; answers its length.
// An array vector is filled with zeros when it is made, so a short target is made in a short one.
pub fn resolve(base: &[u8], reference: &[u8], out: &mut [u8]) -> Option<usize>
    ensures answer { result ≡ resolve_answer base.now reference.now (length out.old) }
    ensures out { out.new ≡ resolve_out base.now reference.now out.old }
    ensures laws { Lawful base.now reference.now result out.new }
{
    if base.len() + 1 + reference.len() > ROOM {
        return None;
    }
    if base.len() + 1 + reference.len() > 2048 {
        return resolve_in::<ROOM>(base, reference, out);
    }
    if base.len() + 1 + reference.len() > 1024 {
        return resolve_in::<2048>(base, reference, out);
    }
    if base.len() + 1 + reference.len() > 256 {
        return resolve_in::<1024>(base, reference, out);
    }
    resolve_in::<256>(base, reference, out)
}
