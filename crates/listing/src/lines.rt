// The lines of the listing: one for each card and counter, rising.
ghost use Rattle.std.specs.Prelude.{◌≡◌, ◌+◌, ◌*◌, ◌≤◌, ◌<◌, length};
ghost use Rattle.replica_model.specs.Layout.{replica_length};
ghost use Rattle.replica_model.specs.Calls.{read_on};
ghost use Rattle.text.specs.Put.{Put, SameBytes};
ghost use Rattle.listing.specs.Listing.{quiet, line, card_lines, lines, most_listed_cards, most_listed_counters};
ghost use Rattle.listing.specs.Sizes.{line_bytes, card_bytes, Writable};

use layout::words;
use replica::read;
use replica_model::Reading;
use text::Output;

const COMMA: [u8; 1] = *b",";

const LINE_END: [u8; 2] = *b"\r\n";

// The most bytes of a line: five numbers, four commas and the line end.
pub(crate) const LINE_BYTES: usize = 5 * text::MOST_DIGITS + 4 + 2;

// "quiet 1 or 0"
fn quiet_of(a: Reading) -> u64
    ensures { (result ≡ quiet a) × (result ≤ 1) }
{
    u64::from(read::is_quiet(a))
}

// "decimal numbers, the holder set as a number, quiet 1 or 0"
fn put_line(card: u64, counter: u64, a: Reading, out: &mut Output)
    requires { Writable card counter a × (out.old.len + line_bytes ≤ length out.old.bytes.now) }
    ensures put { Put line_bytes out.old.bytes.now out.old.len (line card counter a) out.new.bytes.now out.new.len }
    ensures same_bytes { SameBytes out.old out.new }
{
    out.put_field(card, &COMMA);
    out.put_field(counter, &COMMA);
    out.put_field(a.value, &COMMA);
    out.put_field(a.holders, &COMMA);
    out.put_field(quiet_of(a), &LINE_END);
}

// The line of one counter, as the card's replica reads it.
fn put_counter(card: usize, counter: usize, b: &[u64], out: &mut Output)
    requires { (card < most_listed_cards) × (counter < most_listed_counters) × (out.old.len + line_bytes ≤ length out.old.bytes.now) }
    ensures put { Put line_bytes out.old.bytes.now out.old.len (line card counter (read_on b.now counter)) out.new.bytes.now out.new.len }
    ensures same_bytes { SameBytes out.old out.new }
{
    let a = Reading::from(read::read(b, counter as u64));
    put_line(card as u64, counter as u64, a, out);
}

// The lines of one card.
fn put_card(card: usize, counters: usize, b: &[u64], out: &mut Output)
    requires { (card < most_listed_cards) × (counters ≤ most_listed_counters) × (out.old.len + card_bytes ≤ length out.old.bytes.now) }
    ensures put { Put card_bytes out.old.bytes.now out.old.len (card_lines card b.now counters) out.new.bytes.now out.new.len }
    ensures same_bytes { SameBytes out.old out.new }
{
    for counter in 0..counters {
        put_counter(card, counter, b, out);
    }
}

// The lines of all cards. "Each card's replica is its own stretch of the caller's words".
pub(crate) fn put_lines(cards: usize, counters: usize, words: &[u64], out: &mut Output)
    requires { (cards ≤ most_listed_cards) × (counters ≤ most_listed_counters) × (cards * replica_length cards counters ≡ length words.now) × (out.old.len + card_bytes * cards ≤ length out.old.bytes.now) }
    ensures put { Put (card_bytes * cards) out.old.bytes.now out.old.len (lines cards counters words.now cards) out.new.bytes.now out.new.len }
    ensures same_bytes { SameBytes out.old out.new }
{
    let size = words::replica_words(cards, counters);
    for (card, b) in words.chunks_exact(size).enumerate() {
        put_card(card, counters, b, out);
    }
}
