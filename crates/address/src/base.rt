// The base that references are joined to, and the bytes that addresses have.
ghost use Rattle.std.specs.Prelude.{◌≡◌};
ghost use Rattle.std.specs.List.{list_all};
ghost use Rattle.address.specs.Join.{visible};

use arrayvec::ArrayVec;

// At most 2,000 bytes, in memory of its own.
#[derive(Drop)]
pub struct Base {
    pub(crate) bytes: ArrayVec<u8, 2000>,
}

// Whether each byte is from 33 to 126.
pub(crate) fn is_visible(bytes: &[u8]) -> bool
    ensures { result ≡ list_all visible bytes.now }
{
    bytes.iter().all(|b| b.is_ascii_graphic())
}
