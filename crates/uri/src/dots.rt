// remove_dot_segments of RFC 3986, section 5.2.4.
ghost use Rattle.std.specs.Prelude.{◌≡◌, ◌<◌, ◌++◌, length, IfSome};
ghost use Rattle.uri.specs.Write.{HasRoom};
ghost use Rattle.uri.specs.Dots.{rightmost, turn, remove_dots, without_last, first_segment, behind_segment};

use crate::buffer::{Buffer, put};
use crate::parse::cut;

// The index of the right-most slash.
pub(crate) fn last_slash(bytes: &[u8]) -> Option<usize>
    ensures value { result ≡ rightmost bytes.now }
    ensures within { IfSome result (λ i. i < length bytes.now) }
{
    bytes.iter().rposition(|b| *b == b'/')
}

// The output loses its last segment and the slash before that.
fn drop_last<const N: usize>(output: &mut Buffer<N>)
    ensures { output.new.items ≡ without_last output.old.items }
{
    let kept = last_slash(output.as_slice()).unwrap_or(0);
    output.truncate(kept);
}

// The first segment of the input, and what follows it.
fn cut_segment(input: &[u8]) -> (&[u8], &[u8])
    requires { 0 < length input.now }
    ensures segment { result.0.now ≡ first_segment input.now }
    ensures behind { result.1.now ≡ behind_segment input.now }
{
    let (inner, behind) = cut(&input[1..], b"/");
    (&input[..1 + inner.len()], behind)
}

// One turn: the first rule that applies to the input. It answers what is left of that.
fn take_turn<'a, const N: usize>(input: &'a [u8], output: &mut Buffer<N>) -> &'a [u8]
    requires some { 0 < length input.now }
    requires room { HasRoom N output.old input.now }
    ensures input { result.now ≡ (turn input.now output.old.items).0 }
    ensures output { output.new.items ≡ (turn input.now output.old.items).1 }
{
    match input {
        [b'.', b'.', b'/', rest @ ..] | [b'.', b'/', rest @ ..] => rest,
        [b'/', b'.', b'/', ..] => &input[2..],
        [b'/', b'.'] => b"/",
        [b'/', b'.', b'.', b'/', ..] => {
            drop_last(output);
            &input[3..]
        }
        [b'/', b'.', b'.'] => {
            drop_last(output);
            b"/"
        }
        [b'.'] | [b'.', b'.'] => b"",
        _ => {
            let (segment, behind) = cut_segment(input);
            put(output, segment);
            behind
        }
    }
}

// Appends the path without its dot segments, by the standard's loop: what a turn leaves is the input of the next.
pub(crate) fn put_without_dots<const N: usize>(out: &mut Buffer<N>, path: &[u8])
    requires { HasRoom N out.old path.now }
    ensures { out.new.items ≡ out.old.items ++ remove_dots path.now }
{
    let mut output = Buffer::<N>::new();
    let mut input = path;
    while !input.is_empty() {
        input = take_turn(input, &mut output);
    }
    put(out, output.as_slice());
}
