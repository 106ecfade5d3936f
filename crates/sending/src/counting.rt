// The call that counts: it makes an increment, writes it to the output and applies it to the own replica.
ghost use Rattle.std.specs.Prelude.{◌≡◌, true, ◌+◌, ◌≤◌, ◌<◌, length, IfOk};
ghost use Rattle.protocol.specs.Refusals.{number_in};
ghost use Rattle.replica_model.specs.Told.{cleared_answer};
ghost use Rattle.protocol.specs.Limits.{MAX, most_amount};
ghost use Rattle.protocol.specs.Checks.{first_failing};
ghost use Rattle.protocol.specs.Entry.{count_starts, count_p, incremented};
ghost use Rattle.wire.specs.Message.{version_2, increment_length};
ghost use Rattle.replica_model.specs.Layout.{cards};
ghost use Rattle.replica_model.specs.Format.{format_2};
ghost use Rattle.replica_model.specs.Calls.{SendOutcome, is_amount, making_checks, sent_with, count_of, count_on, ClearedOutcome, with_value};
ghost use Rattle.replica_model.proofs.Senders.{Sending};

use crate::check_row;
use layout::words;
use layout::words::Row;
use protocol::{Entry, Refusal};
use replica_model::Made;
use wire::number::Unsigned;
use wire::{Kind, encode, range};

// Lines 13 to 16, for an amount: p goes on from the own entry, and from all that the card has counted where there is none.
fn next_p(e: Entry, counted: u64, amount: u64) -> u64
    requires { (e.p ≤ MAX) × (counted ≤ MAX) × (amount ≤ most_amount) }
    ensures { result ≡ count_p amount counted e }
{
    if 0 < e.p {
        e.p + amount
    } else {
        counted + amount
    }
}

// What the message makes of the own entry: c is at most what the card has counted, so the new c is the larger, and p rises above n, so nothing is removed and the row has an entry.
fn counted_entry(e: Entry, counted: u64, amount: u64) -> Entry
    requires { (e.n ≤ e.p) × (e.p ≤ e.c) × (e.c ≤ counted) × (counted + amount ≤ MAX) × (1 ≤ amount) }
    ensures { (result ≡ incremented amount (count_p amount counted e) (count_starts e) counted e) × (0 < result.p) }
{
    let c = counted + amount;
    if 0 < e.p {
        Entry {
            p: e.p + amount,
            n: e.n,
            c,
        }
    } else {
        Entry {
            p: c,
            n: counted,
            c,
        }
    }
}

// The message, where every check has passed, and its sequence. A number's byte stores become one store where the words are read right before it, so each is
// read there, some for the answer and for the words that change at the end.
fn make(words: &mut [u64], row: Row, amount: u64, out: &mut [u8]) -> u64
    requires { (row.cards ≡ cards words.old) × Sending words.old row.counter amount × (is_amount amount ≡ true) × (increment_length version_2 ≤ length out.old) }
    ensures { ◌≡◌ {A = SendOutcome} (record { answer = record { number = 0; sequence = result; length = increment_length version_2 }; words = words.new; out = out.new }) (sent_with format_2 words.old out.old (count_of words.old row.counter amount)) }
{
    let own = words::own_card(words);
    wire::VERSION_2.write(out, 0);
    (Kind::Increment as u32).write(out, encode::KIND_AT);
    (words::own_card(words) as u32).write(out, encode::SENDER_AT);
    (words::messages_at(words, row.cards, own) + 1).write(out, encode::SEQUENCE_AT);
    let messages = words::messages_at(words, row.cards, own);
    (row.counter as u32).write(out, encode::COUNTER_AT);
    let p = next_p(
        row.entry(words, own),
        words::increments_at(words, own),
        amount,
    );
    p.write(out, encode::P_AT);
    let e = row.entry(words, own);
    u32::from(e.p == 0).write(out, encode::START_AT);
    let counted = words::increments_at(words, own);
    (amount as u32).write(out, encode::AMOUNT_AT);
    row.put_present(words, own, counted_entry(e, counted, amount));
    words::set_increments(words, own, counted + amount);
    words::set_messages(words, row.cards, own, messages + 1);
    messages + 1
}

// Ruled out: a count that leaves the amount out of p (must-fail/amount_left_out_of_p), one that makes an absent entry with n = p - 1
// (must-fail/starts_at_p_minus_one), one that takes an output shorter than its message (must-fail/short_output_passed), and one that restarts p after a clear
// (must-fail/restart_p_at_one of crate protocol).
pub fn count(words: &mut [u64], counter: u64, amount: u64, out: &mut [u8]) -> Result<Made, Refusal>
    ensures { ◌≡◌ {A = ClearedOutcome} (record { answer = cleared_answer result; words = words.new; out = out.new }) (with_value 0 (count_on words.old counter amount out.old)) }
{
    let row = words::row_of(words, counter)?;
    if !range::is_amount(amount) {
        return Err(Refusal::BadAmount);
    }
    check_row(words, row, amount)?;
    if out.len() < wire::INCREMENT_BYTES {
        return Err(Refusal::ShortOutput);
    }
    let sequence = make(words, row, amount, out);
    Ok(Made {
        value: 0,
        sequence,
        length: wire::INCREMENT_BYTES as u64,
    })
}
