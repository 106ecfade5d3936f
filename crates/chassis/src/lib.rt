// Several cards joined by logs: the waiting message of a log, and a run of steps.
#![tactic(auto)]

ghost use Rattle.std.specs.Prelude.{◌≡◌, ◌+◌, ◌*◌, ◌≤◌, ◌<◌};
ghost use Rattle.protocol.specs.Limits.{most_cards, most_counters};
ghost use Rattle.chassis.specs.SizesOf.{sizes_of};

pub mod begin;
pub mod log;
pub mod run;
pub mod stepping;
pub mod steps;

use layout::words;
use std::ops::Range;

// The sizes of a chassis within the limits: cards, counters, the bytes of a card's log, and the words of a replica.
#[derive(Clone, Copy)]
pub struct Sizes {
    pub cards: usize,
    pub counters: usize,
    pub log_bytes: usize,
    pub replica_words: usize,
}

impl Sizes {
    // Ruled out: the words of replicas with other sizes (must-fail/replicas_of_no_counters).
    pub fn new(cards: usize, counters: usize, log_bytes: usize) -> Sizes
        requires { (cards ≤ most_cards) × (counters ≤ most_counters) }
        ensures { result ≡ sizes_of cards counters log_bytes }
    {
        Sizes {
            cards,
            counters,
            log_bytes,
            replica_words: words::replica_words(cards, counters),
        }
    }

    // Where the card's replica stands in the words.
    // Ruled out: a part of another length (must-fail/half_a_replica).
    pub fn replica(self, card: usize) -> Range<usize>
        requires { (card < self.cards) × (self.cards * self.replica_words ≤ usize.MAX) }
        ensures { (result.start ≡ card * self.replica_words) × (result.end ≡ result.start + self.replica_words) × (result.end ≤ self.cards * self.replica_words) }
    {
        let start = card * self.replica_words;
        start..start + self.replica_words
    }

    // Where its log stands in the logs.
    // Ruled out: a part of another length (must-fail/half_a_log).
    pub fn log(self, card: usize) -> Range<usize>
        requires { (card < self.cards) × (self.cards * self.log_bytes ≤ usize.MAX) }
        ensures { (result.start ≡ card * self.log_bytes) × (result.end ≡ result.start + self.log_bytes) × (result.end ≤ self.cards * self.log_bytes) }
    {
        let start = card * self.log_bytes;
        start..start + self.log_bytes
    }
}
