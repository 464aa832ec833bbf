// Pages in linked records, and opening records that anybody filled.
#![tactic(auto)]

mod accepted;
mod check;
mod links;
mod node;
mod open;
mod paged;
mod read;
mod records;

pub use accepted::LinkedPage;
pub use node::LinkedNode;
pub use records::LinkedRecords;
