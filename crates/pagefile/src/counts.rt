// The counts of a page file.

// How many records each section of a page file has.
#[derive(Clone, Copy, PartialEq, Eq, Debug)]
pub struct Counts {
    pub nodes: usize,
    pub attrs: usize,
    pub bytes: usize,
}
