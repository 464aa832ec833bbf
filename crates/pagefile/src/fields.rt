// The fields of a page file.
ghost use Rattle.std.specs.Prelude.{◌≡◌, ◌+◌, ◌≤◌, length};
ghost use Rattle.pagefile.specs.File.{u16_at, u32_at};

pub(crate) fn u16_at(file: &[u8], p: usize) -> u16
    requires { p + 2 ≤ length file.now }
    ensures { result ≡ u16_at file.now p }
{
    u16::from_le_bytes([file[p], file[p + 1]])
}

pub(crate) fn u32_at(file: &[u8], p: usize) -> u32
    requires { p + 4 ≤ length file.now }
    ensures { result ≡ u32_at file.now p }
{
    u32::from_le_bytes([file[p], file[p + 1], file[p + 2], file[p + 3]])
}
