// Where each word of a replica stands, and whether the replica and one of its rows are well-formed: the only file of the code that knows the
// layout (replica_model/specs/Layout.antt). Its functions require what the public calls have tested.
ghost use Rattle.std.specs.Prelude.{◌≡◌, ◌+◌, ◌*◌, ◌^◌, ◌<◌, ◌≤◌, true, false, length, nat_le, nat_lt, IfOk};
ghost use Rattle.protocol.specs.Limits.{most_cards, most_counters};
ghost use Rattle.protocol.specs.Refusals.{number_in};
ghost use Rattle.protocol.specs.Checks.{first_failing};
ghost use Rattle.protocol.specs.Functions.{all_below};
ghost use Rattle.protocol.specs.Acceptance.{entry_well_formed};
ghost use Rattle.protocol.specs.Entry.{absent, has_entry};
ghost use Rattle.replica_model.specs.Layout.{cards, counters, own_card, replica_length, at_entry, active_word, active_of, C_of, N_of, entry_from, entry_of, set_C, set_N, set_three, set_entry, set_active, mark};
ghost use Rattle.replica_model.specs.Calls.{sizes_in_range, replica_fits, right, in_place, row_well_formed};
ghost use Rattle.replica_model.specs.ClaimTerms.{Right};
ghost use Rattle.layout.specs.WordsLaws.{HeadInside, CInside, NInside, RowInside, counter_checks, with_head};
ghost use Rattle.layout.specs.RowCheck.{Ordered, joined, Checked};

use protocol::{Entry, Refusal};

// The words before C: r, k, the own card and the active counters.
pub const HEAD: usize = 4;

// Which of them has the active counters, a bit each.
const ACTIVE: usize = 3;

// The words of an entry: p, n and c.
pub const ENTRY: usize = 3;

// How long a replica of r cards and k counters is.
pub fn replica_words(r: usize, k: usize) -> usize
    requires { (r ≤ most_cards) × (k ≤ most_counters) }
    ensures { result ≡ replica_length r k }
{
    HEAD + 2 * r + ENTRY * (r * k)
}

// Ruled out: a card more than there may be (must-fail/thirteen_cards of crate replica_model).
pub fn are_sizes_in_range(r: u64, k: u64) -> bool
    ensures { result ≡ sizes_in_range r k }
{
    (1..=protocol::MOST_CARDS).contains(&r) & (1..=protocol::MOST_COUNTERS).contains(&k)
}

// The first three words.

pub fn cards_of(words: &[u64]) -> usize
    requires { HeadInside words.now }
    ensures { result ≡ cards words.now }
{
    words[0] as usize
}

pub fn counters_of(words: &[u64]) -> u64
    requires { HeadInside words.now }
    ensures { result ≡ counters words.now }
{
    words[1]
}

pub fn own_card(words: &[u64]) -> usize
    requires { HeadInside words.now }
    ensures { result ≡ own_card words.now }
{
    words[2] as usize
}

pub fn set_head(words: &mut [u64], r: u64, k: u64, own: u64)
    requires { HeadInside words.old }
    ensures { words.new ≡ with_head r k own words.old }
{
    words[0] = r;
    words[1] = k;
    words[2] = own;
}

// Whether words of this length hold a replica of these sizes. No length is worked out before r and k are known to be small, so that no product
// wraps.
pub fn fits(len: usize, r: u64, k: u64, own: u64) -> bool
    ensures { result ≡ replica_fits r k own len }
{
    are_sizes_in_range(r, k) && (own < r) & (len == replica_words(r as usize, k as usize))
}

// Whether no bit is one for a counter that is not there: at most one is left behind the first k - 1. So nothing is shifted by 64.
// Ruled out: a bit at k (must-fail/bit_of_no_counter).
fn is_low(active: u64, k: usize) -> bool
    requires { (1 ≤ k) × (k ≤ most_counters) }
    ensures { result ≡ nat_lt active (2 ^ k) }
{
    active >> (k - 1) < 2
}

pub fn is_right(words: &[u64]) -> bool
    ensures { result ≡ right words.now }
{
    words.len() >= HEAD
        && fits(words.len(), words[0], words[1], words[2])
        && is_low(words[ACTIVE], words[1] as usize)
}

// Whether it is the replica of card `own` of r cards and k counters, as far as its first four words say.
pub fn is_in_place(words: &[u64], r: usize, k: usize, own: usize) -> bool
    requires { HeadInside words.now × (1 ≤ k) × (k ≤ most_counters) }
    ensures { result ≡ in_place r k own words.now }
{
    (words[0] == r as u64)
        & (words[1] == k as u64)
        & (words[2] == own as u64)
        & is_low(words[ACTIVE], k)
}

// The active counters, and whether counter q is one.

pub fn active_counters(words: &[u64]) -> u64
    requires { HeadInside words.now }
    ensures { result ≡ active_word words.now }
{
    words[ACTIVE]
}

fn is_active(words: &[u64], q: usize) -> bool
    requires { HeadInside words.now × (q < most_counters) }
    ensures { result ≡ active_of words.now q }
{
    (words[ACTIVE] >> q) & 1 == 1
}

// Ruled out: another counter's bit set (must-fail/marks_counter_0_too) or taken away (must-fail/quiets_counter_0_too).
pub fn set_active(words: &mut [u64], q: usize, active: bool)
    requires { HeadInside words.old × (q < most_counters) }
    ensures { words.new ≡ set_active q active words.old }
{
    let bit = 1u64 << q;
    if active {
        words[ACTIVE] |= bit;
    } else {
        words[ACTIVE] &= !bit;
    }
}

// C[j] and N[j].

pub fn increments_at(words: &[u64], j: usize) -> u64
    requires { CInside words.now j }
    ensures { result ≡ C_of words.now j }
{
    words[HEAD + j]
}

pub fn messages_at(words: &[u64], r: usize, j: usize) -> u64
    requires { NInside r words.now j }
    ensures { result ≡ N_of r words.now j }
{
    words[HEAD + r + j]
}

pub fn set_increments(words: &mut [u64], j: usize, value: u64)
    requires { CInside words.old j }
    ensures { words.new ≡ set_C j value words.old }
{
    words[HEAD + j] = value;
}

pub fn set_messages(words: &mut [u64], r: usize, j: usize, value: u64)
    requires { NInside r words.old j }
    ensures { words.new ≡ set_N r j value words.old }
{
    words[HEAD + r + j] = value;
}

// The three words of an entry: what they say, and others there.

fn entry_from(words: &[u64], at: usize) -> Entry
    requires { at + 2 < length words.now }
    ensures { result ≡ entry_from words.now at }
{
    Entry {
        p: words[at],
        n: words[at + 1],
        c: words[at + 2],
    }
}

fn put_three(words: &mut [u64], at: usize, e: Entry)
    requires { at + 2 < length words.old }
    ensures { words.new ≡ set_three words.old at e.p e.n e.c }
{
    words[at] = e.p;
    words[at + 1] = e.n;
    words[at + 2] = e.c;
}

// Three zeros, from the last on: where one branch puts an entry and another takes it away, stores in one order would be made one for both, of numbers that the branch has
// chosen, and zeros no longer be two stores.
fn clear_three(words: &mut [u64], at: usize)
    requires { at + 2 < length words.old }
    ensures { words.new ≡ set_three words.old at 0 0 0 }
{
    words[at + 2] = 0;
    words[at + 1] = 0;
    words[at] = 0;
}

// Whether a row is well-formed (SPECIFICATION 3), in tests that a row which is never fails: what is to be at most MAX is joined bit by bit and
// compared once, behind the loop, and each other test decides by itself.

// n at most p, p at most c, and no c where p is 0. In the last test 0 - p is 0 where p is, and else no smaller than any c up to MAX.
// Ruled out: an entry with n above p, and one with c but no p (must-fail/c_without_p).
pub fn is_entry_ordered(e: Entry) -> bool
    ensures { (result ≡ true → Ordered e) × (result ≡ false → entry_well_formed e ≡ false) }
{
    e.p <= e.c && e.n <= e.p && e.c <= e.p.wrapping_neg()
}

// C and N of every card, joined bit by bit: they stand side by side.
pub fn counts_joined(words: &[u64], r: usize) -> u64
    requires { Right words.now × (r ≡ cards words.now) }
    ensures { result ≡ joined (2 * r) words.now }
{
    let mut all: u64 = 0;
    for count in &words[HEAD..HEAD + 2 * r] {
        all |= *count;
    }
    all
}

// The words are not held: they are read through a `&` and written through a `&mut`, so each reading method would stand twice, and what is true of both stands in each
// contract (`RowInside`). The row of a counter, in the words of a replica of so many cards: the entries of that counter, one for each card.
#[derive(Clone, Copy)]
pub struct Row {
    pub cards: usize,
    pub counter: usize,
}

impl Row {
    fn entry_place(self, card: usize) -> usize
        requires { (self.counter * self.cards ≤ most_counters * most_cards) × (self.cards ≤ most_cards) × (card < self.cards) }
        ensures { result ≡ at_entry self.cards self.counter card }
    {
        HEAD + 2 * self.cards + ENTRY * (self.counter * self.cards + card)
    }

    pub fn entry(self, words: &[u64], card: usize) -> Entry
        requires { RowInside words.now self.cards self.counter × (card < self.cards) }
        ensures { result ≡ entry_of self.cards words.now self.counter card }
    {
        entry_from(words, self.entry_place(card))
    }

    pub fn put_entry(self, words: &mut [u64], card: usize, e: Entry)
        requires { RowInside words.old self.cards self.counter × (card < self.cards) }
        ensures { words.new ≡ set_entry self.cards self.counter card e words.old }
    {
        put_three(words, self.entry_place(card), e);
    }

    pub fn put_absent(self, words: &mut [u64], card: usize)
        requires { RowInside words.old self.cards self.counter × (card < self.cards) }
        ensures { words.new ≡ set_entry self.cards self.counter card absent words.old }
    {
        clear_three(words, self.entry_place(card));
    }

    // An entry put that is present, and so the row's bit with it.
    pub fn put_present(self, words: &mut [u64], card: usize, e: Entry)
        requires { RowInside words.old self.cards self.counter × (card < self.cards) × (0 < e.p) }
        ensures { words.new ≡ mark self.cards self.counter (set_entry self.cards self.counter card e words.old) }
    {
        self.put_entry(words, card, e);
        set_active(words, self.counter, true);
    }

    // Whether the row has an entry: every p, joined bit by bit.
    fn has_entry(self, words: &[u64]) -> bool
        requires { RowInside words.now self.cards self.counter }
        ensures { result ≡ has_entry self.cards (entry_of self.cards words.now self.counter) }
    {
        let mut all: u64 = 0;
        for card in 0..self.cards {
            all |= self.entry(words, card).p;
        }
        0 < all
    }

    // The row's bit, by a look at all of its entries.
    pub fn mark(self, words: &mut [u64])
        requires { RowInside words.old self.cards self.counter }
        ensures { words.new ≡ mark self.cards self.counter words.old }
    {
        let active = self.has_entry(words);
        set_active(words, self.counter, active);
    }

    // The own entry's c is at most the own C.
    fn is_own_entry_counted(self, words: &[u64]) -> bool
        requires { RowInside words.now self.cards self.counter }
        ensures { result ≡ nat_le (entry_of self.cards words.now self.counter (own_card words.now)).c (C_of words.now (own_card words.now)) }
    {
        let own = own_card(words);
        self.entry(words, own).c <= increments_at(words, own)
    }

    // What is left to ask of the row behind its entries: `counts` is C and N joined, `high` every c. An entry that is ordered is present where its c is not 0, so
    // `high` says what the bit has to.
    // Ruled out: numbers of MAX refused (must-fail/MAX_refused), C asked to be within N, and a row taken for empty whose entry has a c of 1 (must-fail/c_of_1_not_seen).
    pub fn is_rest_well_formed(self, words: &[u64], counts: u64, high: u64) -> bool
        requires { RowInside words.now self.cards self.counter × (counts ≡ joined (2 * self.cards) words.now) × Checked words.now self.cards self.counter self.cards high }
        ensures { result ≡ row_well_formed words.now self.counter }
    {
        (counts | high) <= protocol::MAX
            && self.is_own_entry_counted(words)
            && is_active(words, self.counter) == (0 < high)
    }

    // Whether the row is well-formed; `counts` is C and N joined.
    fn is_well_formed_beside(self, words: &[u64], counts: u64) -> bool
        requires { RowInside words.now self.cards self.counter × (counts ≡ joined (2 * self.cards) words.now) }
        ensures { result ≡ row_well_formed words.now self.counter }
    {
        let mut high: u64 = 0;
        for card in 0..self.cards {
            let e = self.entry(words, card);
            if !is_entry_ordered(e) {
                return false;
            }
            high |= e.c;
        }
        self.is_rest_well_formed(words, counts, high)
    }

    pub fn is_well_formed(self, words: &[u64]) -> bool
        requires { RowInside words.now self.cards self.counter }
        ensures { result ≡ row_well_formed words.now self.counter }
    {
        let counts = counts_joined(words, self.cards);
        self.is_well_formed_beside(words, counts)
    }
}

// The row of a counter, if the words are a replica (else 1) and have that counter (else 3). It is compiled into its callers: called, each would count more
// instructions.
// Ruled out: a row of counter k (must-fail/counter_k_passes).
#[inline(always)]
pub fn row_of(words: &[u64], counter: u64) -> Result<Row, Refusal>
    ensures checked { number_in result ≡ first_failing (counter_checks words.now counter) }
    ensures row { IfOk result (λ row. RowInside words.now row.cards row.counter × (row.counter ≡ counter)) }
{
    if !is_right(words) {
        return Err(Refusal::BadReplica);
    }
    if counters_of(words) <= counter {
        return Err(Refusal::BadCounter);
    }
    Ok(Row {
        cards: cards_of(words),
        counter: counter as usize,
    })
}

// Whether every row is well-formed: C and N are joined once.
// Ruled out: a row that is not looked at (must-fail/row_0_not_looked_at).
pub fn are_rows_well_formed(words: &[u64]) -> bool
    requires { Right words.now }
    ensures { result ≡ all_below (counters words.now) (row_well_formed words.now) }
{
    let cards = cards_of(words);
    let counts = counts_joined(words, cards);
    let counters = counters_of(words) as usize;
    (0..counters).all(|counter| Row { cards, counter }.is_well_formed_beside(words, counts))
}
