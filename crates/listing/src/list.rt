// The listing of a run whose sizes and steps are given as bytes.
ghost use Rattle.std.specs.Prelude.{◌≡◌, ℕ, ◌+◌, ◌*◌, ◌≤◌, true, false, length, take, replicate, MatchOption};
ghost use Rattle.wire.specs.Message.{over};
ghost use Rattle.replica_model.specs.Layout.{replica_length};
ghost use Rattle.text.specs.Put.{Put, SameBytes};
ghost use Rattle.listing.specs.Listing.{given_cards, given_counters, given_steps, input_right, run_words, run_listing, listing_of};
ghost use Rattle.listing.specs.Sizes.{listing_bytes, Listable};

use crate::lines;
use chassis::run;
use chassis::stepping::ANSWER_WORDS;
use chassis::steps::STEP_BYTES;
use layout::words;
use text::Output;
use wire::number::{INT_BYTES, Unsigned};

// "r <= 4, k <= 8, at most 256 steps, L = 4,096"
const MOST_LISTED_CARDS: usize = 4;

const MOST_LISTED_COUNTERS: usize = 8;

const MOST_LISTED_STEPS: usize = 256;

const LOG_BYTES: usize = 4096;

// r and k, an unsigned int each, stand before the steps.
const COUNTERS_AT: usize = INT_BYTES;

const STEPS_AT: usize = 2 * INT_BYTES;

// The words of the largest run. A replica's length is that of `words::replica_words`, which the value of a constant cannot call.
const MOST_WORDS: usize = MOST_LISTED_CARDS
    * (words::HEAD
        + 2 * MOST_LISTED_CARDS
        + words::ENTRY * (MOST_LISTED_CARDS * MOST_LISTED_COUNTERS));

// The largest input that is right, and one byte more, by which a larger one is known: these decide the listing (claim `first_bytes_decide`).
pub const INPUT_BYTES: usize = STEPS_AT + STEP_BYTES * MOST_LISTED_STEPS + 1;

const HEADER_BYTES: usize = 34;

const HEADER: [u8; HEADER_BYTES] = *b"card,counter,value,holders,quiet\r\n";

// The most bytes of a listing: the header, and a line for each card and counter.
pub const LISTING_BYTES: usize = HEADER_BYTES
    + lines::LINE_BYTES * (MOST_LISTED_CARDS * MOST_LISTED_COUNTERS);

const REFUSED: [u8; 12] = *b"refused,11\r\n";

// An input whose sizes are right: r, k and the steps.
#[derive(Clone, Copy)]
struct Input<'a> {
    cards: usize,
    counters: usize,
    steps: &'a [u8],
}

fn input_of(bytes: &[u8]) -> Option<Input<'_>>
    ensures { MatchOption result (input_right bytes.now ≡ false) (λ input. (input_right bytes.now ≡ true) × (input.cards ≡ given_cards bytes.now) × (input.counters ≡ given_counters bytes.now) × (input.steps.now ≡ given_steps bytes.now)) }
{
    if bytes.len() < STEPS_AT {
        return None;
    }
    let cards = u32::read(bytes, 0) as usize;
    let counters = u32::read(bytes, COUNTERS_AT) as usize;
    let steps = &bytes[STEPS_AT..];
    let is_right = (1 <= cards)
        & (cards <= MOST_LISTED_CARDS)
        & (1 <= counters)
        & (counters <= MOST_LISTED_COUNTERS)
        & (steps.len() % STEP_BYTES == 0)
        & (steps.len() <= STEP_BYTES * MOST_LISTED_STEPS);
    if is_right {
        Some(Input {
            cards,
            counters,
            steps,
        })
    } else {
        None
    }
}

// The run's words. Its logs and answers are not listed.
fn run_steps(input: Input, words: &mut [u64])
    requires { Listable input.cards input.counters input.steps.now × (words.old ≡ replicate {A = ℕ} (input.cards * replica_length input.cards input.counters) 0) }
    ensures { words.new ≡ run_words input.entry.cards input.entry.counters input.entry.steps.now }
{
    let mut logs: [u8; MOST_LISTED_CARDS * LOG_BYTES] = [0; MOST_LISTED_CARDS * LOG_BYTES];
    let mut answers: [u64; ANSWER_WORDS * MOST_LISTED_STEPS] = [0; ANSWER_WORDS
        * MOST_LISTED_STEPS];
    let log_end = input.cards * LOG_BYTES;
    let answers_end = ANSWER_WORDS * (input.steps.len() / STEP_BYTES);
    // What the run answers is left unread: `run_words` is of the words alone.
    let _ = run::run(
        input.cards as u64,
        input.counters as u64,
        LOG_BYTES as u64,
        input.steps,
        words,
        &mut logs[..log_end],
        &mut answers[..answers_end],
    );
}

// "opens with the line card,counter,value,holders,quiet. Then one line for each card and counter"
fn put_run(input: Input, words: &mut [u64], out: &mut Output)
    requires { Listable input.cards input.counters input.steps.now × (words.old ≡ replicate {A = ℕ} (input.cards * replica_length input.cards input.counters) 0) × (out.old.len + listing_bytes ≤ length out.old.bytes.now) }
    ensures put { Put listing_bytes out.old.bytes.now out.old.len (run_listing input.entry.cards input.entry.counters input.entry.steps.now) out.new.bytes.now out.new.len }
    ensures same_bytes { SameBytes out.old out.new }
{
    run_steps(input, words);
    out.put_text(&HEADER);
    lines::put_lines(input.cards, input.counters, words, out);
}

// Lends the run its words: the first r replicas' of those that the largest run takes.
fn put_listing(input: Input, out: &mut Output)
    requires { Listable input.cards input.counters input.steps.now × (out.old.len + listing_bytes ≤ length out.old.bytes.now) }
    ensures put { Put listing_bytes out.old.bytes.now out.old.len (run_listing input.entry.cards input.entry.counters input.entry.steps.now) out.new.bytes.now out.new.len }
    ensures same_bytes { SameBytes out.old out.new }
{
    let mut words: [u64; MOST_WORDS] = [0; MOST_WORDS];
    let end = input.cards * words::replica_words(input.cards, input.counters);
    put_run(input, &mut words[..end], out);
}

// Writes the listing of the run that the input gives, or the refusal, to the front of `out`, and returns its length. Every input has an answer;
// bytes of `out` past the length stay. Ruled out: a listing with the holders in the value's place (must-fail/value_and_holders_exchanged), one that calls
// a counter with a value quiet (must-fail/quiet_inverted).
pub fn list(input: &[u8], out: &mut [u8; LISTING_BYTES]) -> usize
    ensures listed { (out.new ≡ over (listing_of input.now) out.old) × (result ≡ length (listing_of input.now)) }
    ensures counted { (result ≤ length out.new) × (result ≡ length (take result out.new)) }
{
    let mut listing = Output { bytes: out, len: 0 };
    match input_of(input) {
        Some(right) => put_listing(right, &mut listing),
        None => listing.put_text(&REFUSED),
    }
    listing.len
}
