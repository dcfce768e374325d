#![tactic(auto)]

pub mod dense;
pub mod display;
pub mod kinds;
pub mod reach;
pub mod symbol;
pub mod tape;
