//! The program place: an alphabet and numbered blocks, as a source says them.

#![tactic(auto)]

mod arms;
pub mod blocks;
pub mod builder;
pub mod laws;
pub mod limits;
pub mod program;
mod store;
