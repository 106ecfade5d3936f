// What one card's replica is and what each call on it does: definitions and claims (specs/). The answers stand here, so that the definitions' records and the
// code's structs are one type: what a call gives where it is accepted, and what a host in C is told, which has a number in front.
#![tactic(auto)]

ghost use Rattle.std.specs.Prelude.{◌≡◌};
ghost use Rattle.replica_model.specs.Told.{read_answer, active_answer, sent_answer, cleared_answer, taken_answer};

use protocol::Refusal;

// A counter's value, the holders as a mask and how many they are.
#[derive(Clone, Copy)]
pub struct Held {
    pub value: u64,
    pub holders: u64,
    pub holder_count: u64,
}

// A message that was made: the value read just before it, its sequence and the length written.
#[derive(Clone, Copy)]
pub struct Made {
    pub value: u64,
    pub sequence: u64,
    pub length: u64,
}

// Number 0 with what is held; or the number of the refusal with zeros.
#[repr(C)]
#[derive(Clone, Copy)]
pub struct Reading {
    pub number: u64,
    pub value: u64,
    pub holders: u64,
    pub holder_count: u64,
}

// Number 0 with the active counters as a mask; or the number of the refusal with zero.
#[repr(C)]
#[derive(Clone, Copy)]
pub struct Active {
    pub number: u64,
    pub counters: u64,
}

// Number 0 with the message's sequence and the length written; or the number of the refusal with zeros.
#[repr(C)]
#[derive(Clone, Copy)]
pub struct Sent {
    pub number: u64,
    pub sequence: u64,
    pub length: u64,
}

// Number 0 with the value read just before the clear, the message's sequence and the length written; or the number of the refusal with zeros.
#[repr(C)]
#[derive(Clone, Copy)]
pub struct Cleared {
    pub number: u64,
    pub value: u64,
    pub sequence: u64,
    pub length: u64,
}

// Number 0 with the sequence of the message taken; or the number of the refusal with zero.
#[repr(C)]
#[derive(Clone, Copy)]
pub struct Taken {
    pub number: u64,
    pub sequence: u64,
}

impl From<Result<Held, Refusal>> for Reading {
    ghost from_gives = { λ outcome answer. answer ≡ read_answer outcome };

    fn from(outcome: Result<Held, Refusal>) -> Reading {
        match outcome {
            Ok(held) => Reading {
                number: 0,
                value: held.value,
                holders: held.holders,
                holder_count: held.holder_count,
            },
            Err(refusal) => Reading {
                number: refusal.into(),
                value: 0,
                holders: 0,
                holder_count: 0,
            },
        }
    }
}

impl From<Result<u64, Refusal>> for Active {
    ghost from_gives = { λ outcome answer. answer ≡ active_answer outcome };

    fn from(outcome: Result<u64, Refusal>) -> Active {
        match outcome {
            Ok(counters) => Active {
                number: 0,
                counters,
            },
            Err(refusal) => Active {
                number: refusal.into(),
                counters: 0,
            },
        }
    }
}

impl From<Result<Made, Refusal>> for Sent {
    ghost from_gives = { λ outcome answer. answer ≡ sent_answer outcome };

    fn from(outcome: Result<Made, Refusal>) -> Sent {
        match outcome {
            Ok(made) => Sent {
                number: 0,
                sequence: made.sequence,
                length: made.length,
            },
            Err(refusal) => Sent {
                number: refusal.into(),
                sequence: 0,
                length: 0,
            },
        }
    }
}

impl From<Result<Made, Refusal>> for Cleared {
    ghost from_gives = { λ outcome answer. answer ≡ cleared_answer outcome };

    fn from(outcome: Result<Made, Refusal>) -> Cleared {
        match outcome {
            Ok(made) => Cleared {
                number: 0,
                value: made.value,
                sequence: made.sequence,
                length: made.length,
            },
            Err(refusal) => Cleared {
                number: refusal.into(),
                value: 0,
                sequence: 0,
                length: 0,
            },
        }
    }
}

impl From<Result<u64, Refusal>> for Taken {
    ghost from_gives = { λ outcome answer. answer ≡ taken_answer outcome };

    fn from(outcome: Result<u64, Refusal>) -> Taken {
        match outcome {
            Ok(sequence) => Taken {
                number: 0,
                sequence,
            },
            Err(refusal) => Taken {
                number: refusal.into(),
                sequence: 0,
            },
        }
    }
}
