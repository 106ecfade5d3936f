// Taking another card's message.
ghost use Rattle.std.specs.Prelude.{◌≡◌, ◌≢◌, ◌≤◌, length, IfOk};
ghost use Rattle.protocol.specs.Refusals.{number_in};
ghost use Rattle.replica_model.specs.Told.{taken_answer};
ghost use Rattle.protocol.specs.Limits.{MAX, most_amount};
ghost use Rattle.protocol.specs.Checks.{first_failing};
ghost use Rattle.protocol.specs.Acceptance.{increment_plausible};
ghost use Rattle.wire.specs.Message.{version_2, increment_kind, clear_kind, header_length, shortest_message};
ghost use Rattle.wire.specs.MessageParts.{header_at};
ghost use Rattle.replica_model.specs.Layout.{cards};
ghost use Rattle.replica_model.specs.Format.{Received};
ghost use Rattle.replica_model.specs.Calls.{TakeOutcome, take_on};
ghost use Rattle.replica_model.specs.ClaimTerms.{Right};
ghost use Rattle.taking.specs.Taking.{entry_test, row_checks, Given, sender_checks};

use crate::effect;
use layout::words;
use layout::words::Row;
use protocol::{ClearEntry, Refusal};
use wire::reader::{Header, Reader};
use wire::{Kind, range};

// `received` is C of the sender.
fn is_increment_plausible(received: u64, amount: u64, p: u64, start: bool) -> bool
    requires { (received ≤ MAX) × (amount ≤ most_amount) }
    ensures { result ≡ increment_plausible received amount p start }
{
    let next = received + amount;
    if start {
        (p == next) & (next <= protocol::MAX)
    } else {
        (amount < p) & (p <= next) & (next <= protocol::MAX)
    }
}

// `ours` and `theirs` are C of the receiving card and of the sender, which are two cards.
fn is_entry_plausible(e: ClearEntry, own: usize, ours: u64, sender: usize, theirs: u64) -> bool
    requires { own ≢ sender }
    ensures { result ≡ entry_test own ours sender theirs e }
{
    let card = e.card as usize;
    if card == own {
        e.c <= ours
    } else if card == sender {
        e.c <= theirs
    } else {
        true
    }
}

// The checks that both kinds have (`message_checks` has them and their order) are asked in two parts.

// 3 and 2: the counter is below k, and its row, which is answered, is well-formed. It is compiled into both of its callers: a take counts some fifty instructions more
// where it is called.
#[inline(always)]
fn check_row(words: &[u64], counter: u32) -> Result<Row, Refusal>
    requires { Right words.now }
    ensures checked { number_in result ≡ first_failing (row_checks words.now counter) }
    ensures row { IfOk result (λ row. (row.cards ≡ cards words.now) × (row.counter ≡ counter)) }
{
    if words::counters_of(words) <= u64::from(counter) {
        return Err(Refusal::BadCounter);
    }
    let row = Row {
        cards: words::cards_of(words),
        counter: counter as usize,
    };
    if row.is_well_formed(words) {
        Ok(row)
    } else {
        Err(Refusal::BadRow)
    }
}

// 7, 8 and 9, for every message of this sender and sequence. `entries_below` says whether every entry names a card below r.
fn check_sender(
    words: &[u64],
    sender: u32,
    sequence: u64,
    entries_below: bool,
) -> Result<(), Refusal>
    requires { Right words.now }
    ensures { (m : Received) → Given (cards words.now) m sender sequence entries_below → number_in result ≡ first_failing (sender_checks words.now m) }
{
    let r = words::cards_of(words);
    let j = sender as usize;
    if !((j < r) & (j != words::own_card(words)) & entries_below) {
        return Err(Refusal::BadCard);
    }
    let messages = words::messages_at(words, r, j);
    if sequence <= messages {
        return Err(Refusal::Repeated);
    }
    if 1 < sequence - messages {
        return Err(Refusal::Early);
    }
    Ok(())
}

// An increment, to a replica that is right. No word is written before the last check. It is compiled into `take`, likewise.
#[inline(always)]
fn take_increment(words: &mut [u64], mut rest: Reader, header: Header) -> Result<u64, Refusal>
    requires { Right words.old × (shortest_message ≤ length rest.src.now) × (header ≡ header_at rest.src.now 0) × (rest.at ≡ header_length) × (header.version ≡ version_2) × (header.kind ≡ increment_kind) }
    ensures { ◌≡◌ {A = TakeOutcome} (record { answer = taken_answer result; words = words.new }) (take_on words.old rest.entry.src.now) }
{
    if rest.src.len() != wire::INCREMENT_BYTES {
        return Err(Refusal::Unreadable);
    }
    let body = rest.increment();
    let amount = u64::from(rest.next::<u32>());
    if !(range::increment_in_range(body.p, body.start)
        & range::rest_in_range(header.sender, header.sequence, header.counter)
        & range::is_amount(amount))
    {
        return Err(Refusal::Unreadable);
    }
    let row = check_row(words, header.counter)?;
    check_sender(words, header.sender, header.sequence, true)?;
    let sender = header.sender as usize;
    let start = body.start == 1;
    let before = words::increments_at(words, sender);
    if !is_increment_plausible(before, amount, body.p, start) {
        return Err(Refusal::Implausible);
    }
    effect::put_increment(words, row, sender, amount, body.p, start);
    words::set_increments(words, sender, before + amount);
    words::set_messages(words, row.cards, sender, header.sequence);
    Ok(header.sequence)
}

// A clear, likewise. It is read once, and held whole: tested, judged and applied in this one function, since one that it is passed to or returned from
// copies it.
fn take_clear(words: &mut [u64], mut rest: Reader, header: Header) -> Result<u64, Refusal>
    requires { Right words.old × (shortest_message ≤ length rest.src.now) × (header ≡ header_at rest.src.now 0) × (rest.at ≡ header_length) × (header.version ≡ version_2) × (header.kind ≡ clear_kind) }
    ensures { ◌≡◌ {A = TakeOutcome} (record { answer = taken_answer result; words = words.new }) (take_on words.old rest.entry.src.now) }
{
    let len = rest.next::<u32>() as usize;
    if wire::MOST_ENTRIES < len {
        return Err(Refusal::Unreadable);
    }
    if rest.src.len() != wire::clear_length(len) {
        return Err(Refusal::Unreadable);
    }
    if !range::rest_in_range(header.sender, header.sequence, header.counter) {
        return Err(Refusal::Unreadable);
    }
    let mut entries = [wire::NO_ENTRY; wire::MOST_ENTRIES];
    let entries = &mut entries[..len];
    let mut low: u64 = 0;
    for place in entries.iter_mut() {
        let e = rest.entry();
        if !range::entry_in_range(low, e) {
            return Err(Refusal::Unreadable);
        }
        *place = e;
        low = range::next_card(e);
    }
    let row = check_row(words, header.counter)?;
    // Cards rise, so all are below r where the last is.
    check_sender(
        words,
        header.sender,
        header.sequence,
        low <= row.cards as u64,
    )?;
    let own = words::own_card(words);
    let sender = header.sender as usize;
    let ours = words::increments_at(words, own);
    let theirs = words::increments_at(words, sender);
    for judged in entries.iter() {
        if !is_entry_plausible(*judged, own, ours, sender, theirs) {
            return Err(Refusal::Implausible);
        }
    }
    for applied in entries.iter() {
        effect::clear_entry(words, row, *applied);
    }
    row.mark(words);
    words::set_messages(words, row.cards, sender, header.sequence);
    Ok(header.sequence)
}

// The message's sequence, where it is taken.
// Ruled out: an increment that moves another counter than its own (must-fail/taken_on_another_counter), a message that is two ahead of the last
// (must-fail/early_taken), a take that keeps the replica, and a message of version 1 that is taken (must-fail/take_keeps_replica and version_1_taken of
// crate replica_model).
pub fn take(words: &mut [u64], message: &[u8]) -> Result<u64, Refusal>
    ensures { ◌≡◌ {A = TakeOutcome} (record { answer = taken_answer result; words = words.new }) (take_on words.old message.now) }
{
    if !words::is_right(words) {
        return Err(Refusal::BadReplica);
    }
    if message.len() < wire::EMPTY_CLEAR_BYTES {
        return Err(Refusal::Unreadable);
    }
    let mut rest = Reader {
        src: message,
        at: 0,
    };
    let header = rest.header();
    if header.version != wire::VERSION_2 {
        return Err(Refusal::Unreadable);
    }
    match Kind::try_from(header.kind)? {
        Kind::Increment => take_increment(words, rest, header),
        Kind::Clear => take_clear(words, rest, header),
    }
}
