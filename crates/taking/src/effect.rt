// Algorithm 1's effectors: what a message that is received does to one entry, and to the words of a replica.
// Lines are those of Algorithm 1 in the 2022 paper.
ghost use Rattle.std.specs.Prelude.{◌≡◌, cond, not, ◌||◌, max, ◌-◌, ◌+◌, ◌≤◌, ◌<◌};
ghost use Rattle.protocol.specs.Entry.{absent, present, larger, raised, finished, settled, incremented};
ghost use Rattle.replica_model.specs.Layout.{C_of, entry_of, set_entry, mark};
ghost use Rattle.layout.specs.WordsLaws.{RowInside};
ghost use Rattle.layout.specs.Effects.{last_word, Receives, entry_cleared};

use layout::words;
use layout::words::Row;
use protocol::{ClearEntry, Entry};

// "max is taken field by field"
fn larger_entry(e: Entry, f: Entry) -> Entry
    ensures { result ≡ larger e f }
{
    Entry {
        p: e.p.max(f.p),
        n: e.n.max(f.n),
        c: e.c.max(f.c),
    }
}

// Lines 19 to 23: an increment that starts, or that finds no entry, cancels all that its card sent before it.
fn brought_n(amount: u64, p: u64, start: bool, e: Entry) -> u64
    requires { amount ≤ p }
    ensures { result ≡ cond (start || not (present e)) (p - amount) 0 }
{
    if start | (e.p == 0) { p - amount } else { 0 }
}

// Lines 24 and 25. p = n is not enough: an entry that a clear made ahead of its increments stays until they have come, or they would count.
fn is_finished(c: u64, e: Entry) -> bool
    ensures { result ≡ finished c e }
{
    (e.p == e.n) & (e.c == c)
}

// Lines 37 and 38, likewise. Two tests of the paper, each on its lines: one for both would say neither.
fn is_settled(received: u64, e: Entry) -> bool
    ensures { result ≡ settled received e }
{
    (e.p == e.n) & (e.c <= received)
}

// Lines 18 to 23, by an amount; `received` is C of the sender before it.
fn raised_entry(amount: u64, p: u64, start: bool, received: u64, e: Entry) -> Entry
    requires { (amount ≤ p) × (received + amount ≤ last_word) }
    ensures { result ≡ raised amount p start received e }
{
    let n = brought_n(amount, p, start, e);
    let c = received + amount;
    larger_entry(e, Entry { p, n, c })
}

// Lines 17 to 25, for an increment of card j by an amount, on the row's counter: its entry is put, and the row's bit with it. Only where the entry goes are the others looked at.
#[inline(always)]
pub(crate) fn put_increment(words: &mut [u64], row: Row, j: usize, amount: u64, p: u64, start: bool)
    requires { Receives words.old row.cards row.counter j × (1 ≤ amount) × (amount ≤ p) × (C_of words.old j + amount ≤ last_word) }
    ensures { words.new ≡ mark row.cards row.counter (set_entry row.cards row.counter j (incremented amount p start (C_of words.old j) (entry_of row.cards words.old row.counter j)) words.old) }
{
    let received = words::increments_at(words, j);
    let e = row.entry(words, j);
    let raised = raised_entry(amount, p, start, received, e);
    if is_finished(received + amount, raised) {
        row.put_absent(words, j);
        row.mark(words);
    } else {
        row.put_present(words, j, raised);
    }
}

// Lines 32 to 38, for one entry of a clear. An absent entry has no case of its own: the larger is then (p, p, c), which goes unless c is ahead.
pub(crate) fn clear_entry(words: &mut [u64], row: Row, entry: ClearEntry)
    requires { RowInside words.old row.cards row.counter × (entry.card < row.cards) × ((entry_of row.cards words.old row.counter entry.card).p ≡ 0 → entry_of row.cards words.old row.counter entry.card ≡ absent) }
    ensures { words.new ≡ entry_cleared row.cards row.counter entry words.old }
{
    let j = entry.card as usize;
    let received = words::increments_at(words, j);
    let e = row.entry(words, j);
    let lowered = larger_entry(
        e,
        Entry {
            p: entry.p,
            n: entry.p,
            c: entry.c,
        },
    );
    if is_settled(received, lowered) {
        row.put_absent(words, j);
    } else {
        row.put_entry(words, j, lowered);
    }
}
