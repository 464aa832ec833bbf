// Joining a reference to a base, and the value as it is written.
ghost use Rattle.std.specs.Prelude.{◌≡◌, ◌≤◌, true, ◌||◌, length, is_some, Some, Err, codes, ◌≢◌};
ghost use Rattle.address.specs.declared.joining.NoJoin.TheVariants.{Room};
ghost use Rattle.uri.specs.Bytes.{after};
ghost use Rattle.uri.specs.Resolve.{resolved};
ghost use Rattle.address.specs.Join.{joinable, joined, stays_as_is, written};
ghost use Rattle.address.specs.Reason.{reason};
ghost use Rattle.address.specs.Answers.{bytes_of, join_answer, join_out, Lawful};
ghost use Rattle.uri.specs.Write.{placed, write_answer, Lawful as Resolved};

use crate::base::{Base, is_visible};
use std::error::Error;
use std::fmt;
use uri::{resolve, write_bytes};

// Why nothing was written.
#[derive(Clone, Copy, PartialEq, Eq, Debug)]
pub enum NoJoin {
    Reference,
    Room,
}

impl fmt::Display for NoJoin {
    ghost output = { λ e. Some (reason e) };

    fn fmt<W: fmt::Write>(&self, f: &mut fmt::Formatter<W>) -> fmt::Result {
        match self {
            NoJoin::Reference => write!(
                f,
                "the reference is too long or has a byte that is not visible"
            ),
            NoJoin::Room => write!(f, "the buffer has no room for the result"),
        }
    }
}

impl Error for NoJoin {}

fn is_joinable(reference: &[u8]) -> bool
    ensures { result ≡ joinable reference.now }
{
    reference.len() <= 2048 && is_visible(reference)
}

// Whether "://" or "s://" follows.
fn follows_http(rest: &[u8]) -> bool
    ensures { result ≡ (is_some (after (codes "://") rest.now) || is_some (after (codes "s://") rest.now)) }
{
    matches!(rest, [b':', b'/', b'/', ..] | [b's', b':', b'/', b'/', ..])
}

// Whether a value is left as it is: it begins with "//", "http://" or "https://".
pub fn stays(value: &[u8]) -> bool
    ensures { result ≡ stays_as_is value.now }
{
    match value {
        [b'/', b'/', ..] => true,
        [b'h', b't', b't', b'p', rest @ ..] => follows_http(rest),
        _ => false,
    }
}

// Writes what the reference gives on the base.
fn write_resolved(base: &Base, reference: &[u8], out: &mut [u8]) -> Option<usize>
    requires { length reference.now ≤ 2048 }
    ensures answer { result ≡ write_answer (resolved (bytes_of base.now) reference.now) (length out.old) }
    ensures out { out.new ≡ placed (resolved (bytes_of base.now) reference.now) out.old }
    ensures laws { Resolved (bytes_of base.now) reference.now result out.new }
    ensures room { 4049 ≤ length out.old → is_some result ≡ true }
{
    resolve(base.bytes(), reference, out)
}

// Joins the reference to the base, and writes the result to the buffer's front; answers its length.
pub fn join(base: &Base, reference: &[u8], out: &mut [u8]) -> Result<usize, NoJoin>
    ensures answer { result ≡ join_answer (joined (bytes_of base.now) reference.now) (length out.old) }
    ensures out { out.new ≡ join_out (joined (bytes_of base.now) reference.now) out.old }
    ensures laws { Lawful (bytes_of base.now) reference.now result out.new }
    ensures room { 4049 ≤ length out.old → result ≢ Err Room }
{
    if !is_joinable(reference) {
        return Err(NoJoin::Reference);
    }
    write_resolved(base, reference, out).ok_or(NoJoin::Room)
}

// Writes a value to the buffer's front, joined to the base unless it stays; answers its length, or nothing where there is no room.
pub fn write_value(base: &Base, value: &[u8], out: &mut [u8]) -> Option<usize>
    ensures answer { result ≡ write_answer (written (bytes_of base.now) value.now) (length out.old) }
    ensures out { out.new ≡ placed (written (bytes_of base.now) value.now) out.old }
    ensures room { length value.now ≤ length out.old → 4049 ≤ length out.old → is_some result ≡ true }
{
    if !stays(value) && is_joinable(value) {
        return write_resolved(base, value, out);
    }
    write_bytes(value, out)
}
