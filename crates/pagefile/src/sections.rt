// The sections of a page file.
ghost use Rattle.std.specs.Prelude.{◌≡◌, true};
ghost use Rattle.table.specs.Checks.{granted};
ghost use Rattle.pagefile.specs.File.{counts_of};
ghost use Rattle.pagefile.specs.Opening.{answer, of_sections};

use crate::counts::Counts;

// The sections of a page file, found in its bytes.
#[derive(Clone, Copy)]
pub(crate) struct Sections<'a> {
    pub(crate) file: &'a [u8],
    pub(crate) counts: Counts,
    ghost counted: { counts ≡ counts_of file.now },
    ghost laid: { granted (answer file.now) of_sections ≡ true },
}

pub(crate) mod find;
mod link;
pub(crate) mod read;
