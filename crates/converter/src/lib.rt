// A log of messages in the other version. The whole log is tested and measured first, then written: a refusal leaves every byte.
#![tactic(auto)]

ghost use Rattle.std.specs.Prelude.{◌≡◌, true, length};
ghost use Rattle.wire.specs.Message.{WriteOutcome, is_log};
ghost use Rattle.wire.specs.Told.{written_answer};
ghost use Rattle.conversion.specs.Conversion.{converted, to_version_2_on, to_version_1_on};
ghost use Rattle.converter.specs.CallLaws.{converted_if_room};

use protocol::Refusal;
use wire::number;

mod measure;
mod put;

// What an increment's amount takes, which version 2 has and version 1 has not.
const AMOUNT_BYTES: usize = number::INT_BYTES;

// Writes the log in the version `to`, in which it takes `needed` bytes, and answers that length; or declines with `ShortOutput`.
fn convert(log: &[u8], from: u32, to: u32, needed: usize, out: &mut [u8]) -> Result<usize, Refusal>
    requires { (is_log from log.now ≡ true) × (needed ≡ length (converted from to log.now)) }
    ensures { ◌≡◌ {A = WriteOutcome} (record { answer = written_answer result; out = out.new }) (converted_if_room from to log.now out.old) }
{
    if out.len() < needed {
        return Err(Refusal::ShortOutput);
    }
    put::put_log(log, from, to, out);
    Ok(needed)
}

// Writes the log, of version 1, in version 2, and answers its length; or declines with `Unreadable`, then `ShortOutput`.
// Ruled out: a log that keeps its version (must-fail/version_kept), one that ends at its first message (must-fail/first_message_only), an increment
// by another amount than 1 (must-fail/amount_of_two), and a length that is not the converted log's (must-fail/one_amount_for_all).
pub fn to_version_2(log: &[u8], out: &mut [u8]) -> Result<usize, Refusal>
    ensures { ◌≡◌ {A = WriteOutcome} (record { answer = written_answer result; out = out.new }) (to_version_2_on log.now out.old) }
{
    let found = measure::measure(log, wire::VERSION_1).ok_or(Refusal::Unreadable)?;
    let needed = log.len() + AMOUNT_BYTES * found.increments;
    convert(log, wire::VERSION_1, wire::VERSION_2, needed, out)
}

// Writes the log, of version 2, in version 1, and answers its length; or declines with `Unreadable`, then `AboveOne`, then `ShortOutput`.
// Ruled out: 5 before 17 (must-fail/short_before_above_one), and an amount above 1 that is left out (must-fail/amount_dropped).
pub fn to_version_1(log: &[u8], out: &mut [u8]) -> Result<usize, Refusal>
    ensures { ◌≡◌ {A = WriteOutcome} (record { answer = written_answer result; out = out.new }) (to_version_1_on log.now out.old) }
{
    let found = measure::measure(log, wire::VERSION_2).ok_or(Refusal::Unreadable)?;
    if !found.by_one {
        return Err(Refusal::AboveOne);
    }
    let needed = log.len() - AMOUNT_BYTES * found.increments;
    convert(log, wire::VERSION_2, wire::VERSION_1, needed, out)
}
