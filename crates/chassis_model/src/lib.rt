// What a chassis of several cards joined by logs is and what a run of steps does: definitions and claims (specs/). The types stand here so that the definitions'
// and the code's are the same.
#![tactic(auto)]

ghost use Rattle.std.specs.Prelude.{◌≡◌};
ghost use Rattle.chassis_model.specs.Told.{step_answer, delivered_answer};

use protocol::Refusal;

// One step of a run: 1 count (card, counter), 2 clear (card, counter), 3 deliver (receiver, sender), 4 read and clear (card, counter). A count
// has its amount, the others have 0 there.
#[repr(C)]
#[derive(Clone, Copy)]
pub struct Step {
    pub kind: u32,
    pub first: u32,
    pub second: u32,
    pub amount: u32,
}

// What a card makes in a step: a count by an amount, a clear, or a clear whose value is read just before.
#[derive(Clone, Copy)]
pub enum Making {
    Count(u32),
    Clear,
    ReadAndClear,
}

// What a step asks for: that a card makes a message on a counter, that a receiver is handed a sender's message, or nothing that there is.
#[derive(Clone, Copy)]
pub enum Action {
    Make(Making, u32, u32),
    Deliver(u32, u32),
    Nothing,
}

// What a step answers, in two words of a host in C: its number, and the value read.
#[derive(Clone, Copy)]
pub struct StepAnswer {
    pub number: u64,
    pub value: u64,
}

// What delivering what waits answers a host in C: its number, and how many deliveries it made.
#[repr(C)]
#[derive(Clone, Copy)]
pub struct Delivered {
    pub number: u64,
    pub deliveries: u64,
}

// A part of a list of bytes, by its place: where it starts, and how long it is.
#[repr(C)]
#[derive(Clone, Copy)]
pub struct Span {
    pub start: u64,
    pub length: u64,
}

impl From<Result<u64, Refusal>> for StepAnswer {
    ghost from_gives = { λ outcome answer. answer ≡ step_answer outcome };

    fn from(outcome: Result<u64, Refusal>) -> StepAnswer {
        match outcome {
            Ok(value) => StepAnswer { number: 0, value },
            Err(refusal) => StepAnswer {
                number: refusal.into(),
                value: 0,
            },
        }
    }
}

impl From<Result<u64, Refusal>> for Delivered {
    ghost from_gives = { λ outcome answer. answer ≡ delivered_answer outcome };

    fn from(outcome: Result<u64, Refusal>) -> Delivered {
        match outcome {
            Ok(deliveries) => Delivered {
                number: 0,
                deliveries,
            },
            Err(refusal) => Delivered {
                number: refusal.into(),
                deliveries: 0,
            },
        }
    }
}
