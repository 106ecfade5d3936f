// The call that clears: it makes a clear of every present entry, writes it to the output and applies it to the own replica.
ghost use Rattle.std.specs.Prelude.{◌≡◌, true, ◌+◌, ◌≤◌, ◌<◌, length, leb, Result, IfOk};
ghost use Rattle.protocol.specs.Refusals.{number_in};
ghost use Rattle.replica_model.specs.Told.{cleared_answer};
ghost use Rattle.std.proofs.lemmas.List.Edits.{sets};
ghost use Rattle.protocol.specs.Checks.{first_failing};
ghost use Rattle.protocol.specs.Chassis.{present_entries};
ghost use Rattle.wire.specs.Message.{clear_length, entries_bytes};
ghost use Rattle.replica_model.specs.Layout.{cards, entry_of};
ghost use Rattle.replica_model.specs.Format.{format_2, size_of};
ghost use Rattle.replica_model.specs.Calls.{making_checks, sent_with, reading, clear_of, ClearedOutcome, with_value, read_and_clear_on};
ghost use Rattle.replica_model.proofs.Senders.{Sending};
ghost use Rattle.replica_model.proofs.PresentLaws.{entry_sent};
ghost use Rattle.layout.specs.WordsLaws.{RowInside};
ghost use Rattle.sending.specs.ClearLaws.{entry_made};

use crate::check_row;
use layout::words;
use layout::words::Row;
use protocol::{Entry, Refusal};
use replica_model::Made;
use wire::number::Unsigned;
use wire::{Kind, encode};

// How many entries of the row are present.
fn holders_of(words: &[u64], row: Row) -> usize
    requires { RowInside words.now row.cards row.counter }
    ensures { result ≡ length (present_entries row.cards (entry_of row.cards words.now row.counter)) }
{
    let mut holders: usize = 0;
    for card in 0..row.cards {
        holders += usize::from(0 < row.entry(words, card).p);
    }
    holders
}

// Is there room for the message? They are counted only where there is none for an entry of every card.
fn has_room(words: &[u64], row: Row, room: usize) -> bool
    requires { RowInside words.now row.cards row.counter }
    ensures { result ≡ leb (clear_length (length (present_entries row.cards (entry_of row.cards words.now row.counter)))) room }
{
    wire::clear_length(row.cards) <= room || wire::clear_length(holders_of(words, row)) <= room
}

// Card j's entry, if it is present: written behind the `len` before it, then cleared. Answers how many are written. As in `counting::make` each number is read where it is
// written. n is at most p, so what the message makes of the entry is (p, p, c), which goes unless c is ahead of C; each is put by itself, so that three zeros are two stores.
// One that stays sets the row's bit, which was taken away before the first.
// Ruled out: an entry dropped though increments that it cancels are still to come (must-fail/dropped_ahead).
fn make_entry(words: &mut [u64], row: Row, card: usize, out: &mut [u8], len: usize) -> usize
    requires { RowInside words.old row.cards row.counter × (card < row.cards) × ((entry_of row.cards words.old row.counter card).n ≤ (entry_of row.cards words.old row.counter card).p) × (clear_length (len + length (entry_sent card (entry_of row.cards words.old row.counter card))) ≤ length out.old) × (len ≤ card) }
    ensures { (result ≡ len + length (entry_sent card (entry_of row.cards words.old row.counter card))) × (words.new ≡ entry_made row.cards row.counter card words.old) × (out.new ≡ sets out.old (clear_length len) (entries_bytes (length (entry_sent card (entry_of row.cards words.old row.counter card))) (entry_sent card (entry_of row.cards words.old row.counter card)))) }
{
    if row.entry(words, card).p == 0 {
        return len;
    }
    let at = wire::clear_length(len);
    (card as u32).write(out, at);
    row.entry(words, card).p.write(out, at + encode::ENTRY_P_AT);
    row.entry(words, card).c.write(out, at + encode::ENTRY_C_AT);
    let e = row.entry(words, card);
    let received = words::increments_at(words, card);
    if received < e.c {
        let ahead = Entry {
            p: e.p,
            n: e.p,
            c: e.c,
        };
        row.put_present(words, card, ahead);
    } else {
        row.put_absent(words, card);
    }
    len + 1
}

// The message, where every check has passed: every present entry (line 29) goes from the words to the output, and is cleared there. None of it is held. The row's bit
// goes before the first, and comes back with an entry that stays.
// Ruled out: another counter's bit taken away (must-fail/quiet_counter_0).
fn make(words: &mut [u64], row: Row, out: &mut [u8]) -> Made
    requires { (row.cards ≡ cards words.old) × Sending words.old row.counter 0 × (size_of (clear_of words.old row.counter) ≤ length out.old) }
    ensures { ◌≡◌ {A = ClearedOutcome} (record { answer = cleared_answer (Result.Ok result); words = words.new; out = out.new }) (with_value (reading words.old row.counter).value (sent_with format_2 words.old out.old (clear_of words.old row.counter))) }
{
    let own = words::own_card(words);
    wire::VERSION_2.write(out, 0);
    (Kind::Clear as u32).write(out, encode::KIND_AT);
    (words::own_card(words) as u32).write(out, encode::SENDER_AT);
    (words::messages_at(words, row.cards, own) + 1).write(out, encode::SEQUENCE_AT);
    let messages = words::messages_at(words, row.cards, own);
    (row.counter as u32).write(out, encode::COUNTER_AT);
    words::set_active(words, row.counter, false);
    let mut value: u64 = 0;
    let mut len: usize = 0;
    for card in 0..row.cards {
        let e = row.entry(words, card);
        value += e.p - e.n;
        len = make_entry(words, row, card, out, len);
    }
    let sequence = messages + 1;
    (len as u32).write(out, encode::LEN_AT);
    words::set_messages(words, row.cards, own, sequence);
    Made {
        value,
        sequence,
        length: wire::clear_length(len) as u64,
    }
}

// Answers the value that a read gives just before the clear, beside the message's sequence and length.
// Ruled out: a clear whose value is 0 (must-fail/cleared_value_0), a value read after the clear, and one of another counter (must-fail/value_after_the_clear,
// value_of_another_counter of crate replica_model).
pub fn clear(words: &mut [u64], counter: u64, out: &mut [u8]) -> Result<Made, Refusal>
    ensures { ◌≡◌ {A = ClearedOutcome} (record { answer = cleared_answer result; words = words.new; out = out.new }) (read_and_clear_on words.old counter out.old) }
{
    let row = words::row_of(words, counter)?;
    check_row(words, row, 0)?;
    if !has_room(words, row, out.len()) {
        return Err(Refusal::ShortOutput);
    }
    Ok(make(words, row, out))
}
