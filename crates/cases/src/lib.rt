// Tests of the public calls at their borders; expected values are worked out by hand.
#![tactic(auto)]

#[cfg(test)]
mod lists;
#[cfg(test)]
mod tapes;
#[cfg(test)]
mod transcripts;
