// A message to bytes. The public call is `write_message`: it tests before it writes, so a refusal leaves every byte. Callers that make a message from a
// card's words write its numbers one by one, at the places below.
ghost use Rattle.std.specs.Prelude.{◌≡◌, ◌≤◌, length, ◌≢◌};
ghost use Rattle.std.proofs.lemmas.List.Edits.{sets};
ghost use Rattle.protocol.specs.Limits.{most_cards};
ghost use Rattle.wire.specs.Message.{clear_kind, header_length, increment_length, clear_length, length_of, WriteOutcome, over, header_bytes, message_bytes, in_range, write_message};
ghost use Rattle.wire.specs.Told.{written_answer};

use crate::number::{HYPER_BYTES, INT_BYTES, Unsigned};
use crate::{
    EMPTY_CLEAR_BYTES, ENTRY_BYTES, HEADER_BYTES, Kind, Message, clear_length, has_amount,
    increment_length, range,
};
use protocol::Refusal;

// Where the fields are written, the version first: each where the one before it ends.
pub const KIND_AT: usize = INT_BYTES;

pub const SENDER_AT: usize = KIND_AT + INT_BYTES;

pub const SEQUENCE_AT: usize = SENDER_AT + INT_BYTES;

pub const COUNTER_AT: usize = SEQUENCE_AT + HYPER_BYTES;

// Behind the header: of an increment p, start and the amount, of a clear the length word and the entries.
pub const P_AT: usize = HEADER_BYTES;

pub const START_AT: usize = P_AT + HYPER_BYTES;

pub const AMOUNT_AT: usize = START_AT + INT_BYTES;

pub const LEN_AT: usize = HEADER_BYTES;

const ENTRIES_AT: usize = EMPTY_CLEAR_BYTES;

// Within an entry, the card first.
pub const ENTRY_P_AT: usize = INT_BYTES;

pub const ENTRY_C_AT: usize = ENTRY_P_AT + HYPER_BYTES;

// Writes the header where there is room for it, whatever its numbers.
fn put_header(m: &Message, out: &mut [u8])
    requires { header_length ≤ length out.old }
    ensures { out.new ≡ sets out.old 0 (header_bytes m.now) }
{
    m.version.write(out, 0);
    m.kind.write(out, KIND_AT);
    m.sender.write(out, SENDER_AT);
    m.sequence.write(out, SEQUENCE_AT);
    m.counter.write(out, COUNTER_AT);
}

// Writes an increment where there is room for it, whatever its numbers.
// Ruled out: a number at another's place, an amount in version 1, and a byte past the increment that changes.
fn put_increment(m: &Message, out: &mut [u8])
    requires { (m.now.kind ≢ clear_kind) × (increment_length m.now.version ≤ length out.old) }
    ensures { out.new ≡ over (message_bytes m.now) out.old }
{
    put_header(m, out);
    m.p.write(out, P_AT);
    m.start.write(out, START_AT);
    if has_amount(m.version) {
        m.amount.write(out, AMOUNT_AT);
    }
}

// Writes a clear where there is room for it, whatever its numbers.
// Ruled out: an entry written past the last (must-fail/entry_past_the_last), and entries left out.
fn put_clear(m: &Message, out: &mut [u8])
    requires { (m.now.kind ≡ clear_kind) × (m.now.len ≤ most_cards) × (clear_length m.now.len ≤ length out.old) }
    ensures { out.new ≡ over (message_bytes m.now) out.old }
{
    put_header(m, out);
    (m.len as u32).write(out, LEN_AT);
    for (i, entry) in m.entries[..m.len].iter().enumerate() {
        let at = ENTRIES_AT + ENTRY_BYTES * i;
        entry.card.write(out, at);
        entry.p.write(out, at + ENTRY_P_AT);
        entry.c.write(out, at + ENTRY_C_AT);
    }
}

// A message has one form: what its version and its kind do not use is 0.
// Ruled out: one in another form (must-fail/unused_not_zero).
fn in_range(m: &Message) -> bool
    ensures { result ≡ in_range m.now }
{
    let header = range::header_in_range(m.version, m.sender, m.sequence, m.counter);
    if !(header & range::body_in_range(m.version, m.kind, m.p, m.start, m.amount, m.len)) {
        return false;
    }
    let (used, rest) = m.entries.split_at(m.len);
    range::entries_in_range(used) && range::unused(rest)
}

// The length of a message of this version and kind with `len` entries.
// Ruled out: a clear's length without its entries, and another length than the increment's (must-fail/increment_of_37_bytes).
fn length_of(version: u32, kind: u32, len: usize) -> usize
    requires { len ≤ most_cards }
    ensures { result ≡ length_of version kind len }
{
    if kind == Kind::Clear as u32 {
        clear_length(len)
    } else {
        increment_length(version)
    }
}

// Writes the message from the first byte on, and answers its length; or declines with `Unreadable`, then `ShortOutput`, and leaves every byte.
// Ruled out: a writer that takes a message in another form than its one (must-fail/unused_not_zero), and one that touches a byte
// past the message (must-fail/entry_past_the_last).
pub fn write_message(m: Message, out: &mut [u8]) -> Result<usize, Refusal>
    ensures { ◌≡◌ {A = WriteOutcome} (record { answer = written_answer result; out = out.new }) (write_message m out.old) }
{
    if !in_range(&m) {
        return Err(Refusal::Unreadable);
    }
    let length = length_of(m.version, m.kind, m.len);
    if out.len() < length {
        return Err(Refusal::ShortOutput);
    }
    if m.kind == Kind::Clear as u32 {
        put_clear(&m, out);
    } else {
        put_increment(&m, out);
    }
    Ok(length)
}
