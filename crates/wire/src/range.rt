// The ranges of a message's fields, shared by reading and writing. Each function takes numbers or entries, never the whole struct.
ghost use Rattle.std.specs.Prelude.{◌≡◌, ◌+◌};
ghost use Rattle.protocol.specs.Limits.{most_amount};
ghost use Rattle.wire.specs.Message.{from_one_to, header_in_range, amount_in_range, increment_in_range, body_in_range, entry_in_range, entries_in_range, unused};
ghost use Rattle.wire.specs.RangeLaws.{rest_in_range};

use crate::{Kind, MOST_ENTRIES, NO_ENTRY, has_amount, is_version};
use protocol::ClearEntry;

const MOST_CARDS: u32 = protocol::MOST_CARDS as u32;

const MOST_COUNTERS: u32 = protocol::MOST_COUNTERS as u32;

fn from_one(x: u64, most: u64) -> bool
    ensures { result ≡ from_one_to most x }
{
    (1..=most).contains(&x)
}

// A header but for its version.
// Ruled out: cards of a larger chassis (must-fail/sixteen_cards), here and in an entry.
pub fn rest_in_range(sender: u32, sequence: u64, counter: u32) -> bool
    ensures { result ≡ rest_in_range sender sequence counter }
{
    (sender < MOST_CARDS) & from_one(sequence, protocol::MAX) & (counter < MOST_COUNTERS)
}

pub(crate) fn header_in_range(version: u32, sender: u32, sequence: u64, counter: u32) -> bool
    ensures { result ≡ header_in_range version sender sequence counter }
{
    is_version(version) & rest_in_range(sender, sequence, counter)
}

pub fn increment_in_range(p: u64, start: u32) -> bool
    ensures { result ≡ increment_in_range p start }
{
    from_one(p, protocol::MAX) & (start <= 1)
}

// Is it an amount that a count may have?
// Ruled out: 0, and an amount that only its last 32 bits make one.
pub fn is_amount(amount: u64) -> bool
    ensures { result ≡ from_one_to most_amount amount }
{
    from_one(amount, protocol::MOST_AMOUNT)
}

pub(crate) fn amount_in_range(version: u32, amount: u32) -> bool
    ensures { result ≡ amount_in_range version amount }
{
    if has_amount(version) {
        is_amount(u64::from(amount))
    } else {
        amount == 0
    }
}

// What the version and the kind ask of the numbers past the header: those that they do not use are 0.
pub(crate) fn body_in_range(
    version: u32,
    kind: u32,
    p: u64,
    start: u32,
    amount: u32,
    len: usize,
) -> bool
    ensures { result ≡ body_in_range version kind p start amount len }
{
    match Kind::try_from(kind) {
        Ok(Kind::Increment) => {
            increment_in_range(p, start) & amount_in_range(version, amount) & (len == 0)
        }
        Ok(Kind::Clear) => (p == 0) & (start == 0) & (amount == 0) & (len <= MOST_ENTRIES),
        Err(_) => false,
    }
}

// Cards rise strictly: the entry's card is `low` or above.
pub fn entry_in_range(low: u64, entry: ClearEntry) -> bool
    ensures { result ≡ entry_in_range low entry }
{
    (low <= u64::from(entry.card))
        & (entry.card < MOST_CARDS)
        & from_one(entry.p, entry.c)
        & from_one(entry.c, protocol::MAX)
}

// The lowest card that may follow.
pub fn next_card(entry: ClearEntry) -> u64
    ensures { result ≡ entry.card + 1 }
{
    u64::from(entry.card) + 1
}

// The entries of a clear.
pub(crate) fn entries_in_range(entries: &[ClearEntry]) -> bool
    ensures { result ≡ entries_in_range 0 entries.now }
{
    let mut low: u64 = 0;
    for entry in entries {
        if !entry_in_range(low, *entry) {
            return false;
        }
        low = next_card(*entry);
    }
    true
}

// The places that a message does not use. A pattern, since a constant to compare with would be data of the archive, which has none.
pub(crate) fn unused(entries: &[ClearEntry]) -> bool
    ensures { result ≡ unused entries.now }
{
    entries.iter().all(|entry| matches!(
        entry,
        ClearEntry {
            card: 0,
            p: 0,
            c: 0
        }
    ))
}
