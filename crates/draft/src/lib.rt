//! The draft that a compiler makes in one pass, in `specs/`: what each piece of a program adds to it, and that it comes to what the
//! syntax tree tells.
//!
//! Each function of `laws` carries one theorem about the definitions, and does nothing.

#![tactic(auto)]

pub mod laws;
