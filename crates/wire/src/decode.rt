// Bytes to a message. The public calls are `read_message` and `front_length`; `reads` and `called_length_of` are internal functions, for callers that test the
// bytes first and hold no more of them than they need. Those that are given a version take messages of that version only.
ghost use Rattle.std.specs.Prelude.{◌≡◌, ◌+◌, ◌*◌, ◌≤◌, true, length, ◌≢◌, IfSome};
ghost use Rattle.wire.specs.Message.{is_version, increment_kind, clear_kind, header_length, entry_length, shortest_message, entries_at, entries_in_range, called_length, message_at, reads, read_message, front_length};
ghost use Rattle.wire.specs.MessageParts.{header_at};
ghost use Rattle.wire.specs.Told.{unless_0, message_answer};

use crate::reader::{Header, Reader};
use crate::{
    EMPTY_CLEAR_BYTES, Kind, MOST_ENTRIES, Message, NO_ENTRY, clear_length, has_amount,
    increment_length, is_version, range,
};
use protocol::Refusal;

// `rest` stands behind the header.
fn does_increment_read(mut rest: Reader, version: u32, header: Header) -> bool
    requires { (header ≡ header_at rest.src.now 0) × (rest.at ≡ header_length) × (header.version ≡ version) × (header.kind ≡ increment_kind) × (is_version version ≡ true) }
    ensures { result ≡ reads version rest.entry.src.now }
{
    if rest.src.len() != increment_length(version) {
        return false;
    }
    let body = rest.increment();
    let others = range::rest_in_range(header.sender, header.sequence, header.counter)
        & range::increment_in_range(body.p, body.start);
    if has_amount(version) {
        let amount: u32 = rest.next();
        others & range::is_amount(u64::from(amount))
    } else {
        others
    }
}

// The next `count` entries.
fn are_entries_in_range(mut rest: Reader, count: usize) -> bool
    requires { rest.at + entry_length * count ≤ length rest.src.now }
    ensures { result ≡ entries_in_range 0 (entries_at count rest.entry.src.now rest.entry.at) }
{
    let mut low: u64 = 0;
    for _ in 0..count {
        let entry = rest.entry();
        if !range::entry_in_range(low, entry) {
            return false;
        }
        low = range::next_card(entry);
    }
    true
}

fn does_clear_read(mut rest: Reader, version: u32, header: Header) -> bool
    requires { (header ≡ header_at rest.src.now 0) × (rest.at ≡ header_length) × (header.version ≡ version) × (header.kind ≡ clear_kind) × (shortest_message ≤ length rest.src.now) × (is_version version ≡ true) }
    ensures { result ≡ reads version rest.entry.src.now }
{
    let count: u32 = rest.next();
    let len = count as usize;
    if MOST_ENTRIES < len {
        return false;
    }
    if rest.src.len() != clear_length(len) {
        return false;
    }
    range::rest_in_range(header.sender, header.sequence, header.counter)
        & are_entries_in_range(rest, len)
}

// Whether the bytes, no fewer than the shortest message has, are a message of this version. `read_message` calls it as well as `reads`: with one
// caller it would be compiled into `reads`, and `reads`, then long, into none of its callers.
fn does_read(bytes: &[u8], version: u32) -> bool
    requires { (is_version version ≡ true) × (shortest_message ≤ length bytes.now) }
    ensures { result ≡ reads version bytes.now }
{
    let mut rest = Reader { src: bytes, at: 0 };
    let header = rest.header();
    if header.version != version {
        return false;
    }
    match Kind::try_from(header.kind) {
        Ok(Kind::Increment) => does_increment_read(rest, version, header),
        Ok(Kind::Clear) => does_clear_read(rest, version, header),
        Err(_) => false,
    }
}

// Whether the bytes are a message of this version. It holds no message, so that testing those of a log costs no struct.
// The version is tested here and not in `does_read`: in a caller that names it, that test is gone when the caller runs.
// Ruled out: a test that takes another length than the message's (must-fail/increment_of_37_bytes), one that takes a clear
// whose cards do not rise (must-fail/cards_may_repeat), and one that takes another version (must-fail/another_version).
pub fn reads(bytes: &[u8], version: u32) -> bool
    ensures { result ≡ reads version bytes.now }
{
    if !is_version(version) {
        return false;
    }
    if bytes.len() < EMPTY_CLEAR_BYTES {
        return false;
    }
    does_read(bytes, version)
}

// The message that bytes stand for, where they read.
fn increment_message(mut rest: Reader, header: Header) -> Message
    requires { (reads header.version rest.src.now ≡ true) × (header ≡ header_at rest.src.now 0) × (rest.at ≡ header_length) × (header.kind ≢ clear_kind) }
    ensures { result ≡ message_at header.version rest.entry.src.now }
{
    let body = rest.increment();
    let amount = rest.amount(header.version);
    Message {
        version: header.version,
        kind: Kind::Increment as u32,
        sender: header.sender,
        sequence: header.sequence,
        counter: header.counter,
        p: body.p,
        start: body.start,
        amount,
        len: 0,
        entries: [NO_ENTRY; MOST_ENTRIES],
    }
}

// "Once read, a clear message is held whole, with all of its entries."
fn clear_message(mut rest: Reader, header: Header) -> Message
    requires { (reads header.version rest.src.now ≡ true) × (header ≡ header_at rest.src.now 0) × (rest.at ≡ header_length) × (header.kind ≡ clear_kind) }
    ensures { result ≡ message_at header.version rest.entry.src.now }
{
    let count: u32 = rest.next();
    let len = count as usize;
    let mut entries = [NO_ENTRY; MOST_ENTRIES];
    for entry in &mut entries[..len] {
        *entry = rest.entry();
    }
    Message {
        version: header.version,
        kind: Kind::Clear as u32,
        sender: header.sender,
        sequence: header.sequence,
        counter: header.counter,
        p: 0,
        start: 0,
        amount: 0,
        len,
        entries,
    }
}

// The message, of any version, that the bytes stand for, or `Unreadable`.
// Ruled out: a reader that takes another length than the message's (must-fail/increment_of_37_bytes), and one that takes a clear
// whose cards do not rise (must-fail/cards_may_repeat).
pub fn read_message(bytes: &[u8]) -> Result<Message, Refusal>
    ensures { message_answer result ≡ read_message bytes.now }
{
    if bytes.len() < EMPTY_CLEAR_BYTES {
        return Err(Refusal::Unreadable);
    }
    let mut rest = Reader { src: bytes, at: 0 };
    let header = rest.header();
    if !is_version(header.version) {
        return Err(Refusal::Unreadable);
    }
    if !does_read(bytes, header.version) {
        return Err(Refusal::Unreadable);
    }
    match Kind::try_from(header.kind)? {
        Kind::Increment => Ok(increment_message(rest, header)),
        Kind::Clear => Ok(clear_message(rest, header)),
    }
}

// The length that the kind and the length word ask for in this version, where the header and that word are there.
// Ruled out: a length that leaves the kind out of account, and one that is not the increment's (must-fail/increment_of_37_bytes).
pub fn called_length_of(bytes: &[u8], version: u32) -> usize
    requires { shortest_message ≤ length bytes.now }
    ensures { result ≡ called_length version bytes.now }
{
    let mut rest = Reader { src: bytes, at: 0 };
    let header = rest.header();
    if header.kind == Kind::Clear as u32 {
        let count: u32 = rest.next();
        clear_length(count as usize)
    } else {
        increment_length(version)
    }
}

// The length of the message of this version that the bytes start with, if they start with one that reads.
// Ruled out: the called length of bytes that do not read, and no length for a message with other bytes after it.
pub fn front_length(bytes: &[u8], version: u32) -> Option<usize>
    ensures length { result ≡ unless_0 (front_length version bytes.now) }
    ensures inside { IfSome result (λ n. n ≤ length bytes.now) }
{
    if bytes.len() < EMPTY_CLEAR_BYTES {
        return None;
    }
    let called = called_length_of(bytes, version);
    let front = bytes.get(..called)?;
    reads(front, version).then_some(called)
}
