// The messages of a log, one after the other, in another version. All are internal functions: the callers have tested the log and the room.
ghost use Rattle.std.specs.Prelude.{◌≡◌, true, ◌++◌, ◌+◌, ◌*◌, ◌≤◌, length, take, drop};
ghost use Rattle.std.proofs.lemmas.List.Edits.{sets};
ghost use Rattle.wire.specs.Number.{int_width, hyper_width, unsigned_int};
ghost use Rattle.wire.specs.Message.{increment_length, amount_at, amount_bytes, version_in, reads, is_log, over};
ghost use Rattle.conversion.specs.Conversion.{converted};
ghost use Rattle.converter.specs.PutLaws.{moved};

use wire::number::Unsigned;
use wire::reader::Reader;
use wire::{Kind, decode, number};

// What an increment has between its version and its amount, in eights.
const BODY_EIGHTS: usize = (wire::PLAIN_INCREMENT_BYTES - number::INT_BYTES) / number::HYPER_BYTES;

// Byte by byte: `copy_from_slice` would be a call of memmove, which the archive needs from outside nowhere else.
fn copy(bytes: &[u8], out: &mut [u8])
    requires { length bytes.now ≤ length out.old }
    ensures { out.new ≡ over bytes.now out.old }
{
    for i in 0..bytes.len() {
        out[i] = bytes[i];
    }
}

// "a clear changes its version only"
fn put_clear(message: &[u8], to: u32, out: &mut [u8])
    requires { (int_width ≤ length message.now) × (length message.now ≤ length out.old) }
    ensures { out.new ≡ over (unsigned_int to ++ drop int_width message.now) out.old }
{
    copy(message, out);
    to.write(out, 0);
}

// Copies `count` times eight bytes from `from` on, to where they stand. Each eight are read as a number right before they are written, which is a
// load and a store. Bytes copied one by one would stay so where their number is known: for all that the compiler knows, the two overlap.
fn copy_eights(bytes: &[u8], from: usize, count: usize, out: &mut [u8])
    requires { (from + hyper_width * count ≤ length bytes.now) × (from + hyper_width * count ≤ length out.old) }
    ensures { out.new ≡ sets out.old from (take (hyper_width * count) (drop from bytes.now)) }
{
    for i in 0..count {
        let at = from + number::HYPER_BYTES * i;
        u64::read(bytes, at).write(out, at);
    }
}

// An increment with another version, and with an amount of 1 where that version has one; answers the length written.
fn put_increment(message: &[u8], to: u32, out: &mut [u8]) -> usize
    requires { (amount_at ≤ length message.now) × (increment_length to ≤ length out.old) }
    ensures { (result ≡ increment_length to) × (out.new ≡ over (unsigned_int to ++ drop int_width (take amount_at message.now) ++ amount_bytes to 1) out.old) }
{
    to.write(out, 0);
    copy_eights(message, number::INT_BYTES, BODY_EIGHTS, out);
    if !wire::has_amount(to) {
        return wire::PLAIN_INCREMENT_BYTES;
    }
    1u32.write(out, wire::PLAIN_INCREMENT_BYTES);
    wire::INCREMENT_BYTES
}

// Writes a message, which names the version that it is of, in the version `to`, and answers the length written.
fn put_message(message: &[u8], to: u32, out: &mut [u8]) -> usize
    requires { (reads (version_in message.now) message.now ≡ true) × (length (moved to message.now) ≤ length out.old) }
    ensures { (result ≡ length (moved to message.now)) × (out.new ≡ over (moved to message.now) out.old) }
{
    let header = Reader {
        src: message,
        at: 0,
    }
    .header();
    if header.kind == Kind::Clear as u32 {
        put_clear(message, to, out);
        message.len()
    } else {
        put_increment(message, to, out)
    }
}

pub(crate) fn put_log(log: &[u8], from: u32, to: u32, out: &mut [u8])
    requires { (is_log from log.now ≡ true) × (length (converted from to log.now) ≤ length out.old) }
    ensures { out.new ≡ over (converted from to log.now) out.old }
{
    let mut rest = log;
    let mut at: usize = 0;
    // No index, as in `measure`.
    while !rest.is_empty() {
        let (message, behind) = rest.split_at(decode::called_length_of(rest, from));
        at += put_message(message, to, &mut out[at..]);
        rest = behind;
    }
}
