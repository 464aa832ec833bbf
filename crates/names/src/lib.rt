// The names and the words that the rules read: tags, attributes, and the words of ids and classes.
#![tactic(auto)]

mod attr;
mod case;
mod tag;
mod word;

pub use attr::{first_attr_of, is_of};
pub use case::lower;
pub use tag::{Tag, tag_of};
pub use word::{
    LIKELY_CANDIDATES, NEGATIVE_CANDIDATES, POSITIVE_CANDIDATES, UNLIKELY_CANDIDATES, has_word_of,
};
