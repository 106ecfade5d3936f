// The messages of SPECIFICATION 2, read from bytes and written into the caller's bytes.
#![tactic(auto)]

ghost use Rattle.std.specs.Prelude.{◌≡◌, ◌^◌, ◌<◌};
ghost use Rattle.wire.specs.Message.{is_version, has_amount, increment_length, clear_length};
ghost use Rattle.wire.specs.Told.{kind_of, message_answer, written_answer};

use protocol::{ClearEntry, Refusal};

pub mod decode;
pub mod encode;
pub mod number;
pub mod range;
pub mod reader;

// The versions. From version 2 on an increment has its amount, and that is all that tells them apart.
pub const VERSION_1: u32 = 1;

pub const VERSION_2: u32 = 2;

// The two kinds of message, by the number that stands for each in the bytes.
#[derive(Clone, Copy, PartialEq, Eq, Debug)]
pub enum Kind {
    Increment = 1,
    Clear,
}

// Ruled out: a number that stands for no kind taken for a clear (must-fail/kind_3_is_a_clear).
impl TryFrom<u32> for Kind {
    type Error = Refusal;

    ghost try_from_gives = { λ number kind. kind ≡ kind_of number };

    fn try_from(number: u32) -> Result<Kind, Refusal> {
        match number {
            1 => Ok(Kind::Increment),
            2 => Ok(Kind::Clear),
            _ => Err(Refusal::Unreadable),
        }
    }
}

// The lengths of a header, of an increment without its amount and with it, of a clear without entries and of an entry.
const HEADER_BYTES: usize = 24;

pub const PLAIN_INCREMENT_BYTES: usize = 36;

pub const INCREMENT_BYTES: usize = 40;

pub const EMPTY_CLEAR_BYTES: usize = 28;

const ENTRY_BYTES: usize = 20;

// A clear has at the most one entry for each card.
pub const MOST_ENTRIES: usize = protocol::MOST_CARDS as usize;

// What stands in the places that a message does not use.
pub const NO_ENTRY: ClearEntry = ClearEntry {
    card: 0,
    p: 0,
    c: 0,
};

// What a refusal has in the place of a message.
const NO_MESSAGE: Message = Message {
    version: 0,
    kind: 0,
    sender: 0,
    sequence: 0,
    counter: 0,
    p: 0,
    start: 0,
    amount: 0,
    len: 0,
    entries: [NO_ENTRY; MOST_ENTRIES],
};

// As a host in C has it, so its kind is a number, and its entries stand in an array with their count beside it. A message held whole: an increment uses `p`, `start` and from version 2 on `amount`, a clear the first `len` entries. What its version and its
// kind do not use is zero.
#[repr(C)]
#[derive(Clone, Copy)]
pub struct Message {
    pub version: u32,
    pub kind: u32,
    pub sender: u32,
    pub sequence: u64,
    pub counter: u32,
    pub p: u64,
    pub start: u32,
    pub amount: u32,
    pub len: usize,
    pub entries: [ClearEntry; MOST_ENTRIES],
}

// Number 0 with the message, or that of `Unreadable` with zeros. The number stands beside the message since a host in C is told it so; so too in `Written`.
#[repr(C)]
#[derive(Clone, Copy)]
pub struct Reading {
    pub number: u64,
    pub message: Message,
}

// Number 0 with the length written, or the number of the refusal with zero.
#[repr(C)]
#[derive(Clone, Copy)]
pub struct Written {
    pub number: u64,
    pub length: usize,
}

impl From<Result<Message, Refusal>> for Reading {
    ghost from_gives = { λ outcome answer. answer ≡ message_answer outcome };

    fn from(outcome: Result<Message, Refusal>) -> Reading {
        match outcome {
            Ok(message) => Reading { number: 0, message },
            Err(refusal) => Reading {
                number: refusal.into(),
                message: NO_MESSAGE,
            },
        }
    }
}

impl From<Result<usize, Refusal>> for Written {
    ghost from_gives = { λ outcome answer. answer ≡ written_answer outcome };

    fn from(outcome: Result<usize, Refusal>) -> Written {
        match outcome {
            Ok(length) => Written { number: 0, length },
            Err(refusal) => Written {
                number: refusal.into(),
                length: 0,
            },
        }
    }
}

fn is_version(version: u32) -> bool
    ensures { result ≡ is_version version }
{
    (VERSION_1..=VERSION_2).contains(&version)
}

// Ruled out: an amount in version 1 (must-fail/amount_in_version_1), and a later version without one.
pub fn has_amount(version: u32) -> bool
    ensures { result ≡ has_amount version }
{
    VERSION_2 <= version
}

// Ruled out: one length for all versions, and one that is not the increment's (must-fail/increment_of_37_bytes).
fn increment_length(version: u32) -> usize
    ensures { result ≡ increment_length version }
{
    if has_amount(version) {
        INCREMENT_BYTES
    } else {
        PLAIN_INCREMENT_BYTES
    }
}

// The length of a clear with so many entries, as many as a length word can say.
pub fn clear_length(entries: usize) -> usize
    requires { entries < 2 ^ 32 }
    ensures { result ≡ clear_length entries }
{
    EMPTY_CLEAR_BYTES + ENTRY_BYTES * entries
}
