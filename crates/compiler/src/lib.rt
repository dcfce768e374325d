//! From a source to the program that it is, or to its fault, in one pass.
#![tactic(auto)]

mod parser;
mod source;

pub use source::{LONGEST_SOURCE, compile, readable};

#[cfg(test)]
mod tests;
