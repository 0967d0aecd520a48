// What the calls say: why one is refused, the codes of operations, what an operation tells, and the answer of a call with
// the number beside it.

#![tactic(auto)]

ghost use Rattle.std.specs.Prelude.{◌≡◌};
ghost use Rattle.answers.specs.Answers.{DONE, refused, done, outcome, moved, not_moved};
ghost use Rattle.answers.specs.Outcomes.{outcome_of, stopped_of, moved_of};

pub mod code;
pub mod refusal;
pub mod told;

pub use code::Code;
pub use refusal::Refusal;
pub use told::{Kind, Told};

// An answer, and operations done, bytes taken or bytes written. Numbers, as C has them: the rest of the engine gives a Result.
#[repr(C)]
#[derive(Clone, Copy)]
pub struct Outcome {
    pub answer: u32,
    pub count: u32,
}

impl Outcome {
    // No refusal has this number.
    pub const DONE: u32 = 0;

    pub fn refused(answer: u32) -> Outcome
        ensures { result ≡ refused answer }
    {
        Outcome::stopped(answer, 0)
    }

    pub fn done(count: u32) -> Outcome
        ensures { result ≡ done count }
    {
        Outcome {
            answer: Outcome::DONE,
            count,
        }
    }

    // A script that stops at an operation gives the number of those done before it.
    pub fn stopped(answer: u32, count: u32) -> Outcome
        ensures { result ≡ outcome answer count }
    {
        Outcome { answer, count }
    }
}

// What a call says that was done, or why it was refused.
impl From<Result<u32, Refusal>> for Outcome {
    ghost from_gives = { λ r o. o ≡ outcome_of r };

    fn from(r: Result<u32, Refusal>) -> Outcome {
        match r {
            Ok(count) => Outcome::done(count),
            Err(refusal) => Outcome::refused(u32::from(refusal)),
        }
    }
}

// A refusal in the midst of a call, and what was done before it.
#[derive(Clone, Copy, Debug, PartialEq, Eq)]
pub struct Stopped {
    pub refusal: Refusal,
    pub count: u32,
}

impl From<Refusal> for Stopped {
    ghost from_gives = { λ r s. (s.refusal ≡ r) × (s.count ≡ 0) };

    fn from(refusal: Refusal) -> Stopped {
        Stopped { refusal, count: 0 }
    }
}

impl From<Result<u32, Stopped>> for Outcome {
    ghost from_gives = { λ r o. o ≡ stopped_of r };

    fn from(r: Result<u32, Stopped>) -> Outcome {
        match r {
            Ok(count) => Outcome::done(count),
            Err(s) => Outcome::stopped(u32::from(s.refusal), s.count),
        }
    }
}

// An answer, the bytes taken of one stored form and the bytes written of the other. Numbers, as C has them.
#[repr(C)]
#[derive(Clone, Copy)]
pub struct Moved {
    pub answer: u32,
    pub taken: u32,
    pub written: u32,
}

impl Moved {
    pub fn refused(answer: u32) -> Moved
        ensures { result ≡ not_moved answer }
    {
        Moved {
            answer,
            taken: 0,
            written: 0,
        }
    }

    pub fn done(taken: u32, written: u32) -> Moved
        ensures { result ≡ moved DONE taken written }
    {
        Moved {
            answer: Outcome::DONE,
            taken,
            written,
        }
    }
}

// The bytes taken of one stored form and written of the other.
#[derive(Clone, Copy, Debug, PartialEq, Eq)]
pub struct Passed {
    pub taken: u32,
    pub written: u32,
}

impl From<Result<Passed, Refusal>> for Moved {
    ghost from_gives = { λ r m. m ≡ moved_of r };

    fn from(r: Result<Passed, Refusal>) -> Moved {
        match r {
            Ok(p) => Moved::done(p.taken, p.written),
            Err(refusal) => Moved::refused(u32::from(refusal)),
        }
    }
}
