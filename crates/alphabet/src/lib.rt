//! The alphabet of a program or a table: its letters in order of writing, and the column of each symbol.

#![tactic(auto)]

pub mod letters;
