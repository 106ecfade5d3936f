// How a run begins: its sizes are right, and every replica is written fresh.
ghost use Rattle.std.specs.Prelude.{◌≡◌, ◌*◌, ◌≤◌, ◌<◌, length, eqb};
ghost use Rattle.replica_model.specs.Layout.{replica_length, fresh_words};
ghost use Rattle.replica_model.specs.ClaimTerms.{Sizes};
ghost use Rattle.chassis_model.specs.ListParts.{put_part};
ghost use Rattle.chassis_model.specs.Run.{chassis_fits, fresh_replicas};
ghost use Rattle.chassis.specs.BeginLaws.{lengths_right};

use crate::stepping;
use layout::words;
use replica::open;

// Is x = n * y? The product is not worked out: it may not fit a word.
fn is_product(x: u64, n: u64, y: u64) -> bool
    requires { 1 ≤ n }
    ensures { result ≡ eqb x (n * y) }
{
    x / n == y && x % n == 0
}

// Number 11's test, but for the answers, over the lengths of what the caller lends: r, k and the capacity of a log are any words.
pub fn is_chassis(r: u64, k: u64, log_bytes: u64, words: usize, logs: usize) -> bool
    ensures { result ≡ chassis_fits r k log_bytes words logs }
{
    if !words::are_sizes_in_range(r, k) {
        return false;
    }
    let needed = r as usize * words::replica_words(r as usize, k as usize);
    words == needed && is_product(logs as u64, r, log_bytes)
}

// Number 11's test for a run.
pub fn sizes_are_right(
    r: u64,
    k: u64,
    log_bytes: u64,
    steps: usize,
    words: usize,
    logs: usize,
    answers: usize,
) -> bool
    ensures { result ≡ lengths_right r k log_bytes steps words logs answers }
{
    is_chassis(r, k, log_bytes, words, logs)
        && is_product(answers as u64, stepping::ANSWER_WORDS as u64, steps as u64)
}

fn fresh_card(words: &mut [u64], r: usize, k: usize, card: usize)
    requires { Sizes r k × (card < r) × (length words.old ≡ r * replica_length r k) }
    ensures { words.new ≡ put_part (replica_length r k) card (fresh_words r k card) words.old }
{
    let size = words::replica_words(r, k);
    let at = card * size;
    open::write_fresh(&mut words[at..at + size], r as u64, k as u64, card as u64);
}

// Every replica fresh, whatever the words were.
pub fn fresh_all(words: &mut [u64], r: usize, k: usize)
    requires { Sizes r k × (length words.old ≡ r * replica_length r k) }
    ensures { words.new ≡ fresh_replicas r k r }
{
    for card in 0..r {
        fresh_card(words, r, k, card);
    }
}
