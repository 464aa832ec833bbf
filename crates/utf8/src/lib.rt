// Characters of UTF-8, by Unicode's Table 3-7 (Well-Formed UTF-8 Byte Sequences).
#![tactic(auto)]

mod utf8;

pub use utf8::{count_chars, decode, well_formed};
