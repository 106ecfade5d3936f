// The calls for a host in C or Rust: each is the proved call under its exported name, and what the call gives is put as the host is told it, with the number of
// the refusal in front. See include/yelansub.h.
#![tactic(auto)]

pub mod records;

ghost use Rattle.std.specs.Prelude.{◌≡◌};
ghost use Rattle.protocol.specs.Refusals.{number_in};
ghost use Rattle.wire.specs.Message.{read_message, WriteOutcome, write_message};
ghost use Rattle.conversion.specs.Conversion.{to_version_2_on, to_version_1_on};
ghost use Rattle.replica_model.specs.Calls.{OpenOutcome, open_on, read_on, active_on, SendOutcome, count_on, clear_on, ClearedOutcome, read_and_clear_on, TakeOutcome, take_on};
ghost use Rattle.chassis_model.specs.Log.{waiting_span};
ghost use Rattle.chassis_model.specs.Run.{RunOutcome, run_bytes_on};
ghost use Rattle.chassis_model.specs.Pending.{DeliverOutcome, deliver_pending_on};

use chassis_model::{Delivered, Span};
use protocol::Refusal;
use replica_model::{Active, Cleared, Reading, Sent, Taken};
use wire::{Message, Written};

// The answer of a call of which a host in C is told a number alone.
fn number(outcome: Result<(), Refusal>) -> u64
    ensures { result ≡ number_in outcome }
{
    match outcome {
        Ok(()) => 0,
        Err(refusal) => refusal.into(),
    }
}

// Ruled out: another own card written, and a replica left as it was with number 0.
pub fn yelansub_open(words: &mut [u64], cards: u64, counters: u64, own: u64) -> u64
    ensures { ◌≡◌ {A = OpenOutcome} (record { number = result; words = words.new }) (open_on words.old cards counters own) }
{
    number(replica::open::open(words, cards, counters, own))
}

// Ruled out: another counter's reading (must-fail/read_counter_0), and a reading of zeros.
pub fn yelansub_read(words: &[u64], counter: u64) -> Reading
    ensures { result ≡ read_on words.now counter }
{
    replica::read::read(words, counter).into()
}

// Ruled out: another word of the replica's.
pub fn yelansub_active_counters(words: &[u64]) -> Active
    ensures { result ≡ active_on words.now }
{
    replica::read::active_counters(words).into()
}

// Ruled out: a clear in place of a count, another amount, and a message that is not written.
pub fn yelansub_count(words: &mut [u64], counter: u64, amount: u64, out: &mut [u8]) -> Sent
    ensures { ◌≡◌ {A = SendOutcome} (record { answer = result; words = words.new; out = out.new }) (count_on words.old counter amount out.old) }
{
    sending::counting::count(words, counter, amount, out).into()
}

// Ruled out: a count in place of a clear, and an own replica that is not cleared.
pub fn yelansub_clear(words: &mut [u64], counter: u64, out: &mut [u8]) -> Sent
    ensures { ◌≡◌ {A = SendOutcome} (record { answer = result; words = words.new; out = out.new }) (clear_on words.old counter out.old) }
{
    Sent::from(sending::clearing::clear(words, counter, out))
}

// Ruled out: a clear without the value (must-fail/cleared_without_value), and an own replica that is not cleared.
pub fn yelansub_read_and_clear(words: &mut [u64], counter: u64, out: &mut [u8]) -> Cleared
    ensures { ◌≡◌ {A = ClearedOutcome} (record { answer = result; words = words.new; out = out.new }) (read_and_clear_on words.old counter out.old) }
{
    Cleared::from(sending::clearing::clear(words, counter, out))
}

// Ruled out: a take that keeps the replica, and a number of its own.
pub fn yelansub_take(words: &mut [u64], message: &[u8]) -> Taken
    ensures { ◌≡◌ {A = TakeOutcome} (record { answer = result; words = words.new }) (take_on words.old message.now) }
{
    taking::take::take(words, message).into()
}

// Ruled out: a reader that only declines (must-fail/read_message_declines), and one that reads a part of the bytes.
pub fn yelansub_read_message(bytes: &[u8]) -> wire::Reading
    ensures { result ≡ read_message bytes.now }
{
    wire::decode::read_message(bytes).into()
}

// Ruled out: a refusal answered with 0 (must-fail/write_refusal_hidden), and a message that is not written.
pub fn yelansub_write_message(message: Message, out: &mut [u8]) -> Written
    ensures { ◌≡◌ {A = WriteOutcome} (record { answer = result; out = out.new }) (write_message message out.old) }
{
    wire::encode::write_message(message, out).into()
}

// Ruled out: a log of version 2 converted to version 1, and a refusal answered with 0.
pub fn yelansub_to_version_2(log: &[u8], out: &mut [u8]) -> Written
    ensures { ◌≡◌ {A = WriteOutcome} (record { answer = result; out = out.new }) (to_version_2_on log.now out.old) }
{
    converter::to_version_2(log, out).into()
}

// Ruled out: a log that is converted to version 2 (must-fail/converted_the_other_way), and a refusal answered with 0.
pub fn yelansub_to_version_1(log: &[u8], out: &mut [u8]) -> Written
    ensures { ◌≡◌ {A = WriteOutcome} (record { answer = result; out = out.new }) (to_version_1_on log.now out.old) }
{
    converter::to_version_1(log, out).into()
}

// Ruled out: every log's first message, and a span of a message that does not read.
pub fn yelansub_waiting(log: &[u8], q: u64) -> Span
    ensures { result ≡ waiting_span q log.now }
{
    chassis::log::waiting_span(log, q)
}

// Ruled out: cards and counters exchanged, and answers that are not written.
pub fn yelansub_run(
    cards: u64,
    counters: u64,
    log_bytes: u64,
    steps: &[u8],
    words: &mut [u64],
    logs: &mut [u8],
    answers: &mut [u64],
) -> u64
    ensures { ◌≡◌ {A = RunOutcome} (record { number = result; words = words.new; logs = logs.new; answers = answers.new }) (run_bytes_on cards counters log_bytes steps.now words.old logs.old answers.old) }
{
    number(chassis::run::run(cards, counters, log_bytes, steps, words, logs, answers))
}

// Ruled out: one delivery where more wait, and a number of deliveries that is not the one made.
pub fn yelansub_deliver_pending(
    cards: u64,
    counters: u64,
    log_bytes: u64,
    most: u64,
    words: &mut [u64],
    logs: &[u8],
) -> Delivered
    ensures { ◌≡◌ {A = DeliverOutcome} (record { answer = result; words = words.new }) (deliver_pending_on cards counters log_bytes most words.old logs.now) }
{
    pending::deliver::deliver_pending(cards, counters, log_bytes, most, words, logs).into()
}
