// Reading one counter of a replica, and which are active.
ghost use Rattle.std.specs.Prelude.{◌≡◌, if◌then◌else◌};
ghost use Rattle.protocol.specs.Limits.{bad_row};
ghost use Rattle.protocol.specs.Entry.{present};
ghost use Rattle.replica_model.specs.Calls.{row_well_formed, no_reading, reading, is_quiet, read_on, active_on};
ghost use Rattle.replica_model.specs.Told.{read_answer, active_answer};
ghost use Rattle.layout.specs.WordsLaws.{RowInside};

use layout::words;
use layout::words::Row;
use protocol::{Entry, Refusal};
use replica_model::{Held, Reading};

fn is_present(e: Entry) -> bool
    ensures { result ≡ present e }
{
    0 < e.p
}

// The row is tested, and its value and holders are made, in one pass. Before the pass has ended an entry may be far above MAX, so the sum may wrap; where
// the row is well-formed it has not, since MOST_CARDS times MAX fits.
fn row_reading(words: &[u64], row: Row) -> Result<Held, Refusal>
    requires { RowInside words.now row.cards row.counter }
    ensures { read_answer result ≡ (if row_well_formed words.now row.counter then reading words.now row.counter else no_reading bad_row) }
{
    let counts = words::counts_joined(words, row.cards);
    let mut high: u64 = 0;
    let mut value: u64 = 0;
    let mut holders: u16 = 0;
    for card in 0..row.cards {
        let e = row.entry(words, card);
        if !words::is_entry_ordered(e) {
            return Err(Refusal::BadRow);
        }
        high |= e.c;
        value = value.wrapping_add(e.p - e.n);
        holders |= u16::from(is_present(e)) << card;
    }
    if !row.is_rest_well_formed(words, counts, high) {
        return Err(Refusal::BadRow);
    }
    Ok(Held {
        value,
        holders: u64::from(holders),
        holder_count: u64::from(holders.count_ones()),
    })
}

// Ruled out: a value that is always 0 (must-fail/read_value_zero), a count of holders that is not that of the entries present
// (must-fail/read_invented_holders).
pub fn read(words: &[u64], counter: u64) -> Result<Held, Refusal>
    ensures { read_answer result ≡ read_on words.now counter }
{
    let row = words::row_of(words, counter)?;
    row_reading(words, row)
}

// The active counters, as a mask: the word is answered as it is, and no row is looked at.
// Ruled out: some of them left out (must-fail/active_counter_0_only), a refusal answered with 0 (must-fail/active_refusal_hidden).
pub fn active_counters(words: &[u64]) -> Result<u64, Refusal>
    ensures { active_answer result ≡ active_on words.now }
{
    if words::is_right(words) {
        Ok(words::active_counters(words))
    } else {
        Err(Refusal::BadReplica)
    }
}

// Of the answer that a host is told, as its definition is. Ruled out: quiet by a value of 0, and quiet by a refused read's zeros (must-fail/quiet_as_value_0 and quiet_though_refused of crate
// replica_model).
pub fn is_quiet(a: Reading) -> bool
    ensures { result ≡ is_quiet a }
{
    (a.number == 0) & (a.holders == 0)
}
