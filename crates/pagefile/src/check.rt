// The verdict on a file.
ghost use Rattle.std.specs.Prelude.{◌≡◌, IfOk};
ghost use Rattle.table.specs.Checks.{refused};
ghost use Rattle.pagefile.specs.File.{counts_of};
ghost use Rattle.pagefile.specs.Opening.{verdict};

use crate::counts::Counts;
use crate::sections::Sections;
use crate::sections::find::find;
use table::{Check, check_nodes};

// The first check that a file answers no, or its counts.
pub(crate) fn check(file: &[u8]) -> Result<Counts, Check>
    ensures refused { refused result ≡ verdict file.now }
    ensures made { IfOk result (λ k. k ≡ counts_of file.now) }
{
    let counts = find(file)?;
    check_nodes(&Sections::over(file, counts))?;
    Ok(counts)
}
