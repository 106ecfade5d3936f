// A test of `text` as it is built, since no listing has a number of more than three digits: writes the first 1,024 numbers that standard input holds,
// unsigned hypers of RFC 4506, as decimal text, each on a line of its own. A number of 10^16 or more gives an empty line.
#![tactic(auto)]

ghost use Rattle.std.specs.Prelude.{◌≡◌, ◌+◌, ◌*◌, ◌≤◌, length};

use text::Output;
use wire::number::{HYPER_BYTES, Unsigned};

const STDIN: i32 = 0;

const STDOUT: i32 = 1;

const MOST_NUMBERS: usize = 1024;

const LINE_BYTES: usize = text::MOST_DIGITS + 1;

// 10^16
const LIMIT: u64 = 10_000_000_000_000_000;

const LINE_END: [u8; 1] = *b"\n";

fn put_line(x: u64, out: &mut Output)
    requires { out.old.len + 17 ≤ length out.old.bytes.now }
    ensures { (out.new.len ≤ out.old.len + 17) × (length out.new.bytes.now ≡ length out.old.bytes.now) }
{
    if x < LIMIT {
        out.put_field(x, &LINE_END);
    } else {
        out.put_text(&LINE_END);
    }
}

fn put_lines(input: &[u8], out: &mut Output)
    requires { (out.old.len ≡ 0) × (17 * length input.now ≤ 8 * length out.old.bytes.now) }
    ensures { out.new.len ≤ length out.old.bytes.now }
{
    for number in input.chunks_exact(HYPER_BYTES) {
        put_line(u64::read(number, 0), out);
    }
}

fn main() {
    let mut input = [0u8; HYPER_BYTES * MOST_NUMBERS];
    let length = io::read_full(STDIN, &mut input);
    let mut bytes = [0u8; LINE_BYTES * MOST_NUMBERS];
    let mut out = Output {
        bytes: &mut bytes,
        len: 0,
    };
    put_lines(&input[..length], &mut out);
    let end = out.len;
    io::write_all(STDOUT, &bytes[..end]);
}
