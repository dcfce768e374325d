//! The trait that programs and tables implement, so that runs are written and proved once, against it.

#![tactic(auto)]

pub mod machine;
