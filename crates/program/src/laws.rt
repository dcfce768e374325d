//! The theorems.

ghost use Rattle.program.specs.Laws.{AcceptedFit};

// A builder takes every program without violations.
pub fn accepted_fit()
    ensures { AcceptedFit }
{}
