// Page files: the format, opening, and the opened page.
#![tactic(auto)]

mod check;
mod counts;
mod fields;
mod link;
mod open;
mod opened;
mod paged;
mod sections;
mod totals;

pub use counts::Counts;
pub use opened::OpenedPage;
