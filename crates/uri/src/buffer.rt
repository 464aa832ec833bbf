// The memory that a target is made in.
ghost use Rattle.std.specs.Prelude.{◌≡◌, ◌++◌};
ghost use Rattle.uri.specs.Write.{HasRoom};

use arrayvec::ArrayVec;

pub(crate) type Buffer<const N: usize> = ArrayVec<u8, N>;

// Appends the bytes, for which there must be room.
pub(crate) fn put<const N: usize>(out: &mut Buffer<N>, bytes: &[u8])
    requires { HasRoom N out.old bytes.now }
    ensures { out.new.items ≡ out.old.items ++ bytes.now }
{
    out.try_extend_from_slice(bytes).unwrap();
}
