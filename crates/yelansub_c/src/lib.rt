// The archive for a host in C or Rust: the calls of crate `yelansub` under the names that include/yelansub.h declares, each with the call's own contract.
// What each contract rules out is said at the call, in crate `yelansub`; here, that an export calls another function or hands it other arguments
// (must-fail/read_counter_0, must-fail/cards_and_counters_exchanged).
#![tactic(auto)]

ghost use Rattle.std.specs.Prelude.{◌≡◌};
ghost use Rattle.wire.specs.Message.{read_message, WriteOutcome, write_message};
ghost use Rattle.conversion.specs.Conversion.{to_version_2_on, to_version_1_on};
ghost use Rattle.replica_model.specs.Calls.{OpenOutcome, open_on, read_on, active_on, SendOutcome, count_on, clear_on, ClearedOutcome, read_and_clear_on, TakeOutcome, take_on};
ghost use Rattle.chassis_model.specs.Log.{waiting_span};
ghost use Rattle.chassis_model.specs.Run.{RunOutcome, run_on, run_bytes_on};
ghost use Rattle.chassis_model.specs.Pending.{DeliverOutcome, deliver_pending_on};

use chassis_model::{Delivered, Span, Step};
use replica_model::{Active, Cleared, Reading, Sent, Taken};
use wire::{Message, Written};

#[unsafe(no_mangle)]
pub extern "C" fn yelansub_open(words: &mut [u64], cards: u64, counters: u64, own: u64) -> u64
    ensures { ◌≡◌ {A = OpenOutcome} (record { number = result; words = words.new }) (open_on words.old cards counters own) }
{
    yelansub::yelansub_open(words, cards, counters, own)
}

#[unsafe(no_mangle)]
pub extern "C" fn yelansub_read(words: &[u64], counter: u64) -> Reading
    ensures { result ≡ read_on words.now counter }
{
    yelansub::yelansub_read(words, counter)
}

#[unsafe(no_mangle)]
pub extern "C" fn yelansub_active_counters(words: &[u64]) -> Active
    ensures { result ≡ active_on words.now }
{
    yelansub::yelansub_active_counters(words)
}

#[unsafe(no_mangle)]
pub extern "C" fn yelansub_count(
    words: &mut [u64],
    counter: u64,
    amount: u64,
    out: &mut [u8],
) -> Sent
    ensures { ◌≡◌ {A = SendOutcome} (record { answer = result; words = words.new; out = out.new }) (count_on words.old counter amount out.old) }
{
    yelansub::yelansub_count(words, counter, amount, out)
}

#[unsafe(no_mangle)]
pub extern "C" fn yelansub_clear(words: &mut [u64], counter: u64, out: &mut [u8]) -> Sent
    ensures { ◌≡◌ {A = SendOutcome} (record { answer = result; words = words.new; out = out.new }) (clear_on words.old counter out.old) }
{
    yelansub::yelansub_clear(words, counter, out)
}

#[unsafe(no_mangle)]
pub extern "C" fn yelansub_read_and_clear(
    words: &mut [u64],
    counter: u64,
    out: &mut [u8],
) -> Cleared
    ensures { ◌≡◌ {A = ClearedOutcome} (record { answer = result; words = words.new; out = out.new }) (read_and_clear_on words.old counter out.old) }
{
    yelansub::yelansub_read_and_clear(words, counter, out)
}

#[unsafe(no_mangle)]
pub extern "C" fn yelansub_take(words: &mut [u64], message: &[u8]) -> Taken
    ensures { ◌≡◌ {A = TakeOutcome} (record { answer = result; words = words.new }) (take_on words.old message.now) }
{
    yelansub::yelansub_take(words, message)
}

#[unsafe(no_mangle)]
pub extern "C" fn yelansub_read_message(bytes: &[u8]) -> wire::Reading
    ensures { result ≡ read_message bytes.now }
{
    yelansub::yelansub_read_message(bytes)
}

#[unsafe(no_mangle)]
pub extern "C" fn yelansub_write_message(message: Message, out: &mut [u8]) -> Written
    ensures { ◌≡◌ {A = WriteOutcome} (record { answer = result; out = out.new }) (write_message message out.old) }
{
    yelansub::yelansub_write_message(message, out)
}

#[unsafe(no_mangle)]
pub extern "C" fn yelansub_to_version_2(log: &[u8], out: &mut [u8]) -> Written
    ensures { ◌≡◌ {A = WriteOutcome} (record { answer = result; out = out.new }) (to_version_2_on log.now out.old) }
{
    yelansub::yelansub_to_version_2(log, out)
}

#[unsafe(no_mangle)]
pub extern "C" fn yelansub_to_version_1(log: &[u8], out: &mut [u8]) -> Written
    ensures { ◌≡◌ {A = WriteOutcome} (record { answer = result; out = out.new }) (to_version_1_on log.now out.old) }
{
    yelansub::yelansub_to_version_1(log, out)
}

#[unsafe(no_mangle)]
pub extern "C" fn yelansub_waiting(log: &[u8], q: u64) -> Span
    ensures { result ≡ waiting_span q log.now }
{
    yelansub::yelansub_waiting(log, q)
}

#[unsafe(no_mangle)]
pub extern "C" fn yelansub_run(
    cards: u64,
    counters: u64,
    log_bytes: u64,
    steps: &[u8],
    words: &mut [u64],
    logs: &mut [u8],
    answers: &mut [u64],
) -> u64
    ensures { ◌≡◌ {A = RunOutcome} (record { number = result; words = words.new; logs = logs.new; answers = answers.new }) (run_bytes_on cards counters log_bytes steps.now words.old logs.old answers.old) }
{
    yelansub::yelansub_run(cards, counters, log_bytes, steps, words, logs, answers)
}

#[unsafe(no_mangle)]
pub extern "C" fn yelansub_run_records(
    cards: u64,
    counters: u64,
    log_bytes: u64,
    steps: &[Step],
    words: &mut [u64],
    logs: &mut [u8],
    answers: &mut [u64],
) -> u64
    ensures { ◌≡◌ {A = RunOutcome} (record { number = result; words = words.new; logs = logs.new; answers = answers.new }) (run_on cards counters log_bytes steps.now words.old logs.old answers.old) }
{
    yelansub::records::yelansub_run_records(cards, counters, log_bytes, steps, words, logs, answers)
}

#[unsafe(no_mangle)]
pub extern "C" fn yelansub_deliver_pending(
    cards: u64,
    counters: u64,
    log_bytes: u64,
    most: u64,
    words: &mut [u64],
    logs: &[u8],
) -> Delivered
    ensures { ◌≡◌ {A = DeliverOutcome} (record { answer = result; words = words.new }) (deliver_pending_on cards counters log_bytes most words.old logs.now) }
{
    yelansub::yelansub_deliver_pending(cards, counters, log_bytes, most, words, logs)
}
