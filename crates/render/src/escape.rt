// Bytes in quotes.
ghost use Rattle.std.specs.Prelude.{◌≡◌, ℕ, ◌<◌, List, ◌++◌, is_ok, OnOk, if◌then◌else◌};
ghost use Rattle.std.specs.Char.{digit_char};
ghost use Rattle.std.specs.Iterator.{IsFinite, Drains};
ghost use Rattle.render.specs.Render.{escape, quoted};

use std::alloc::AllocError;

// The lower-case hexadecimal digit of a number below 16: `char::from_digit` would give a `char` or none.
fn hex_digit(d: u8) -> u8
    requires { d < 16 }
    ensures { result ≡ digit_char d }
{
    if d < 10 { b'0' + d } else { b'a' - 10 + d }
}

// Appends a byte as it stands in quotes, or nothing for want of memory.
pub fn push_escaped(out: &mut Vec<u8>, b: u8) -> Result<(), AllocError>
    ensures { out.new.items ≡ (if is_ok result then out.old.items ++ escape b else out.old.items) }
{
    match b {
        b'"' | b'\\' => out.extend_from_slice(&[b'\\', b]),
        _ if b.is_ascii_control() => {
            out.extend_from_slice(&[b'\\', b'x', hex_digit(b / 16), hex_digit(b % 16)])
        }
        _ => out.extend_from_slice(&[b]),
    }
}

// Appends the bytes of an iterator in quotes.
pub(crate) fn push_quoted_from<I: Iterator<Item = u8> + Drop>(
    out: &mut Vec<u8>,
    bytes: I,
) -> Result<(), AllocError>
    requires can { I.can_next bytes }
    requires ends { IsFinite (I.remaining bytes) }
    ensures { OnOk result ((xs : List ℕ) × Drains I.next_gives bytes xs × (out.new.items ≡ out.old.items ++ quoted xs)) }
{
    out.push(b'"')?;
    for b in bytes {
        push_escaped(out, b)?;
    }
    out.push(b'"')?;
    Ok(())
}

// Appends bytes in quotes.
pub fn push_quoted(out: &mut Vec<u8>, bytes: &[u8]) -> Result<(), AllocError>
    ensures { OnOk result (out.new.items ≡ out.old.items ++ quoted bytes.now) }
{
    push_quoted_from(out, bytes.iter().copied())
}
