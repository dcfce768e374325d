#![tactic(auto)]

pub mod record;
pub mod sparse;
