// A message's parts, read one after the other from a position in the bytes, which goes behind each.
// All are internal functions: the callers have tested the length.
ghost use Rattle.std.specs.Prelude.{◌≡◌, ◌+◌, ◌≤◌, length};
ghost use Rattle.wire.specs.Number.{int_width, hyper_width, number_at};
ghost use Rattle.wire.specs.Message.{header_length, increment_body_length, amount_length, entry_length, amount_in, entry_at};
ghost use Rattle.wire.specs.MessageParts.{header_at, behind_header, increment_at, behind_increment, behind_amount, behind_entry};

use crate::has_amount;
use crate::number::Unsigned;
use protocol::ClearEntry;

#[derive(Clone, Copy)]
pub struct Reader<'a> {
    pub src: &'a [u8],
    pub at: usize,
}

// The numbers that every message starts with, the kind as it stands in the bytes: `Kind::try_from` gives its name.
#[derive(Clone, Copy)]
pub struct Header {
    pub version: u32,
    pub kind: u32,
    pub sender: u32,
    pub sequence: u64,
    pub counter: u32,
}

// What every increment has after its header.
#[derive(Clone, Copy)]
pub struct Increment {
    pub p: u64,
    pub start: u32,
}

impl<'a> Reader<'a> {
    // An unsigned int or hyper.
    // Ruled out: a number of another width, and a position that stays where it was (must-fail/reader_stays).
    pub fn next<N: Unsigned>(&mut self) -> N
        requires { self.old.at + N.BYTES ≤ length self.old.src.now }
        ensures { (N.number result ≡ number_at N.BYTES self.old.src.now self.old.at) × (self.new.src ≡ self.old.src) × (self.new.at ≡ self.old.at + N.BYTES) }
    {
        let number = N::read(self.src, self.at);
        self.at += N::BYTES;
        number
    }

    // Ruled out: a number read at the place of the one before it, and an unsigned hyper that moves the position by an unsigned int's width
    // (must-fail/sequence_as_an_int).
    pub fn header(&mut self) -> Header
        requires { self.old.at + header_length ≤ length self.old.src.now }
        ensures { (result ≡ header_at self.old.src.now self.old.at) × (self.new.src ≡ self.old.src) × (self.new.at ≡ behind_header self.old.at) }
    {
        Header {
            version: self.next(),
            kind: self.next(),
            sender: self.next(),
            sequence: self.next(),
            counter: self.next(),
        }
    }

    // Ruled out: `start` before `p`, and `start` inside `p` (must-fail/start_inside_p).
    pub fn increment(&mut self) -> Increment
        requires { self.old.at + increment_body_length ≤ length self.old.src.now }
        ensures { (result ≡ increment_at self.old.src.now self.old.at) × (self.new.src ≡ self.old.src) × (self.new.at ≡ behind_increment self.old.at) }
    {
        Increment {
            p: self.next(),
            start: self.next(),
        }
    }

    // The amount behind that; where the version has none, 0 and no bytes.
    // Ruled out: an amount in version 1 (must-fail/amount_in_version_1, amount_1_in_version_1), and `start` taken for the amount.
    pub fn amount(&mut self, version: u32) -> u32
        requires { self.old.at + amount_length version ≤ length self.old.src.now }
        ensures { (result ≡ amount_in version self.old.src.now self.old.at) × (self.new.src ≡ self.old.src) × (self.new.at ≡ behind_amount version self.old.at) }
    {
        if has_amount(version) { self.next() } else { 0 }
    }

    // Ruled out: `c` read at the place of `p` (must-fail/c_at_the_place_of_p), and a number of the next entry.
    pub fn entry(&mut self) -> ClearEntry
        requires { self.old.at + entry_length ≤ length self.old.src.now }
        ensures { (result ≡ entry_at self.old.src.now self.old.at) × (self.new.src ≡ self.old.src) × (self.new.at ≡ behind_entry self.old.at) }
    {
        ClearEntry {
            card: self.next(),
            p: self.next(),
            c: self.next(),
        }
    }
}
