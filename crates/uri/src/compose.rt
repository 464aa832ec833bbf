// Recomposition of RFC 3986, section 5.3.
ghost use Rattle.std.specs.Prelude.{◌≡◌, ◌+◌, ◌≤◌, ◌++◌, length};
ghost use Rattle.std.specs.Option.{option_map};
ghost use Rattle.arrayvec.specs.ArrayVec.{array_vec_len};
ghost use Rattle.uri.specs.Write.{HasRoom};
ghost use Rattle.uri.specs.Dots.{remove_dots};
ghost use Rattle.uri.specs.Resolve.{closed, led, recompose};
ghost use Rattle.uri.specs.View.{cleaned, kept_of, bytes_of_path, draft_of, finished, room};

use crate::buffer::{Buffer, put};
use crate::dots::put_without_dots;
use crate::target::{Target, TargetPath};

// Appends a component and the mark behind it.
fn put_closed<const N: usize>(out: &mut Buffer<N>, part: Option<&[u8]>, mark: &[u8])
    requires { HasRoom N out.old (closed (option_map (λ x. x.now) part) mark.now) }
    ensures { out.new.items ≡ out.old.items ++ closed (option_map (λ x. x.now) part.entry) mark.now }
{
    if let Some(bytes) = part {
        put(out, bytes);
        put(out, mark);
    }
}

// Appends a component behind its mark, where `put_closed` has the mark behind the component. One function for both would take an empty mark
// at each call.
fn put_led<const N: usize>(out: &mut Buffer<N>, mark: &[u8], part: Option<&[u8]>)
    requires { HasRoom N out.old (led mark.now (option_map (λ x. x.now) part)) }
    ensures { out.new.items ≡ out.old.items ++ led mark.now (option_map (λ x. x.now) part.entry) }
{
    if let Some(bytes) = part {
        put(out, mark);
        put(out, bytes);
    }
}

// Appends two parts of a path, without the dot segments of the whole.
fn put_merged<const N: usize>(out: &mut Buffer<N>, front: &[u8], path: &[u8])
    requires { HasRoom N out.old (front.now ++ path.now) }
    ensures out { out.new.items ≡ out.old.items ++ remove_dots (front.now ++ path.now) }
    ensures short { array_vec_len out.new ≤ array_vec_len out.old + length (front.now ++ path.now) }
{
    let mut merged = Buffer::<N>::new();
    put(&mut merged, front);
    put(&mut merged, path);
    put_without_dots(out, merged.as_slice());
}

// Appends a path, without its dot segments where it is not the base's own.
fn put_path<const N: usize>(out: &mut Buffer<N>, path: TargetPath<'_>)
    requires { HasRoom N out.old (bytes_of_path path) }
    ensures out { out.new.items ≡ out.old.items ++ cleaned (kept_of path.entry) (bytes_of_path path.entry) }
    ensures short { array_vec_len out.new ≤ array_vec_len out.old + length (bytes_of_path path.entry) }
{
    match path {
        TargetPath::Kept(bytes) => put(out, bytes),
        TargetPath::Merged(front, bytes) => put_merged(out, front, bytes),
    }
}

// Appends a target.
pub(crate) fn put_target<const N: usize>(out: &mut Buffer<N>, target: Target<'_>)
    requires { array_vec_len out.old + room (draft_of target) ≤ N }
    ensures { out.new.items ≡ out.old.items ++ recompose (finished (draft_of target.entry)) }
{
    put_closed(out, target.scheme, b":");
    put_led(out, b"//", target.authority);
    put_path(out, target.path);
    put_led(out, b"?", target.query);
    put_led(out, b"#", target.fragment);
}
