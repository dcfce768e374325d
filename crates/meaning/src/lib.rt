//! The meaning of programs, tables and runs, in `specs/`: the blocks of a syntax tree and the rules that it must keep, the outcome of a
//! source, machines by blocks and by tables, runs and their calls, printed text, and the language's own execution.
//!
//! The code declares the types of the answers. Each function of `laws` carries one theorem about the definitions, and does nothing.

#![tactic(auto)]

pub mod calls;
pub mod faults;
pub mod laws;
pub mod machines;
pub mod refusals;
