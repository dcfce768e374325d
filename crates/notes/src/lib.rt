//! What a compiler keeps of a source on its one way through the words, in memory of fixed size.

#![tactic(auto)]

mod faults;
pub mod kinds;
mod names;
pub mod notes;
pub mod switches;
