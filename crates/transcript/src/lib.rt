#![tactic(auto)]

pub mod input;
pub mod lay;
pub mod page;
pub mod show;
pub mod source;
pub mod transcript;
pub mod word;
