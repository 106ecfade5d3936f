// What every layer shares: the limits and the refusals (SPECIFICATION 1.1, 5.1), and the two kinds of entry.
// The theory is in specs/; the types stand here so that the theory's and the code's are one.
#![tactic(auto)]

ghost use Rattle.std.specs.Prelude.{◌≡◌};
ghost use Rattle.protocol.specs.Refusals.{number_of};

// 2^48 - 1.
pub const MAX: u64 = 281474976710655;

pub const MOST_CARDS: u64 = 12;

pub const MOST_COUNTERS: u64 = 64;

// What one count may count.
pub const MOST_AMOUNT: u64 = 65535;

// The refusals, in the order of the specification's table: each has the number that the table gives it, and a host is told that number.
#[derive(Clone, Copy, PartialEq, Eq, Debug)]
pub enum Refusal {
    BadReplica = 1,
    BadRow,
    BadCounter,
    Exhausted,
    ShortOutput,
    Unreadable,
    BadCard,
    Repeated,
    Early,
    Implausible,
    BadSizes,
    BadKind,
    NothingWaiting,
    LogFull,
    BadLog,
    BadAmount,
    AboveOne,
}

// Ruled out: two refusals with one number, and one with another's (must-fail/numbers_from_0).
impl From<Refusal> for u64 {
    ghost from_gives = { λ refusal number. number ≡ number_of refusal };

    fn from(refusal: Refusal) -> u64 {
        refusal as u64
    }
}

// A replica's entry for one counter and one card: (p, n, c) of Algorithm 1, zeros where it is absent.
#[derive(Clone, Copy, PartialEq, Eq)]
pub struct Entry {
    pub p: u64,
    pub n: u64,
    pub c: u64,
}

// An entry of a clear message: (j, p, c) of Algorithm 1.
#[repr(C)]
#[derive(Clone, Copy, PartialEq, Eq)]
pub struct ClearEntry {
    pub card: u32,
    pub p: u64,
    pub c: u64,
}
