// The words of a source, read in place: where each stands, and what it can be to the grammar.
#![tactic(auto)]

mod bytes;
mod reader;
mod token;
mod word;

pub use bytes::{Class, classify, first_foreign};
pub use reader::Reader;
pub use token::{Keyword, Mark, Token};
pub use word::Word;

#[cfg(test)]
mod tests;
