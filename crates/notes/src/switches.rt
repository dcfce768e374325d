use crate::kinds::{Codes, SYMBOLS};

pub mod operations;

// A switch whose end is still to come.
#[derive(Drop)]
pub struct OpenSwitch {
    pub(crate) number: u32,
    // the place of its first case
    pub(crate) first: usize,
    // for each code, whether it was seen
    seen: [bool; SYMBOLS],
    // of the case at hand
    pub(crate) codes: Codes,
}
