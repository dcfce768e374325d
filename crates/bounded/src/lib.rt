#![tactic(auto)]

pub mod inline;
pub mod list;
