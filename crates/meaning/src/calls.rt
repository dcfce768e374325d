use crate::refusals::Refusal;
use tape::kinds::Direction;

// Whether a run has a verdict, and which.
#[derive(Clone, Copy, PartialEq, Eq, Debug, Drop)]
pub enum Status {
    Going,
    Accepted,
    Rejected,
}

// How a go ended.
#[derive(Clone, Copy, PartialEq, Eq, Debug, Drop)]
pub enum Ending {
    // all its steps are done
    Spent,
    Accepted,
    Rejected,
    // a step, or the go itself, is refused
    Refused(Refusal),
}

// A call on a run.
#[derive(Clone, Copy, PartialEq, Eq, Debug, Drop)]
pub enum Call {
    Step,
    Go(u32),
    Mark(u8),
    Nudge(Direction),
    Restart,
    Report,
    Window,
}

// What report tells: the status, the number, the step total, and the code at the head.
#[derive(Clone, Copy, PartialEq, Eq, Debug, Drop)]
pub struct Report {
    pub status: Status,
    pub number: u32,
    pub total: u32,
    pub code: u8,
}

// The answer to a call. `laws::answers_equal` says what `==` tells.
#[derive(Clone, Copy, Debug, Drop, PartialEq, Eq)]
pub enum Answer {
    // of a step: the status after it
    Stepped(Status),
    // of a go: the steps done, and how it ended
    Went(u32, Ending),
    // of a mark, a nudge or a restart
    Done,
    // of a step, a mark or a nudge
    Refused(Refusal),
    Reported(Report),
    // of window: its bytes
    Shown([u8; 15]),
}
