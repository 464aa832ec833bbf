// Finding the sections of a file.
ghost use Rattle.std.specs.Prelude.{◌≡◌, ◌≤◌, true, length, IfOk};
ghost use Rattle.table.specs.Checks.{first_no, granted, refused};
ghost use Rattle.pagefile.specs.File.{size, count_at, count, end_at, counts_of};
ghost use Rattle.pagefile.specs.Opening.{answer, of_section, of_sections};

use super::Sections;
use crate::counts::Counts;
use crate::fields::u32_at;
use table::{Check, Section};

// The bytes of a section's record.
fn record_size(s: Section) -> usize
    ensures { result ≡ size s }
{
    match s {
        Section::Nodes => 16,
        Section::Attributes => 8,
        Section::Bytes => 1,
    }
}

// The count of the section whose count stands at this offset.
fn section(file: &[u8], s: Section, at: usize) -> Result<usize, Check>
    requires { (at ≡ count_at file.now s) × (at ≤ length file.now) }
    ensures refused { refused result ≡ first_no (answer file.now) (of_section s) }
    ensures made { IfOk result (λ n. (count file.now s ≡ n) × (end_at file.now s ≤ length file.now)) }
{
    if file.len() - at < 4 {
        return Err(Check::CountPresent(s));
    }
    let n = u32_at(file, at) as usize;
    s.check_count(n)?;
    if file.len() - at - 4 < record_size(s) * n {
        return Err(Check::RecordsPresent(s));
    }
    Ok(n)
}

// The counts of the sections of a file.
pub(crate) fn find(file: &[u8]) -> Result<Counts, Check>
    ensures refused { refused result ≡ first_no (answer file.now) of_sections }
    ensures made { IfOk result (λ k. k ≡ counts_of file.now) }
{
    let nodes = section(file, Section::Nodes, 0)?;
    let attrs = section(file, Section::Attributes, 4 + 16 * nodes)?;
    let bytes = section(file, Section::Bytes, 8 + 16 * nodes + 8 * attrs)?;
    if file.len() != 12 + 16 * nodes + 8 * attrs + bytes {
        return Err(Check::NothingFollows);
    }
    Ok(Counts {
        nodes,
        attrs,
        bytes,
    })
}

impl<'a> Sections<'a> {
    // The sections of a file that has these counts.
    pub(crate) fn over(file: &'a [u8], counts: Counts) -> Sections<'a>
        requires { (counts ≡ counts_of file.now) × (granted (answer file.now) of_sections ≡ true) }
        ensures { result.file.now ≡ file.now }
    {
        Sections { file, counts }
    }
}
