//! The events of a source's words: what a compiler notes at each word, and that this tells what the syntax tree tells.

#![tactic(auto)]

pub mod laws;
