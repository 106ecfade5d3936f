// A run of steps that are lent as bytes.
ghost use Rattle.std.specs.Prelude.{◌≡◌, ◌*◌, length};
ghost use Rattle.protocol.specs.Refusals.{number_in};
ghost use Rattle.chassis_model.specs.Run.{RunOutcome, answer_length, run_bytes_on, step_length, steps_of};
ghost use Rattle.chassis.specs.SizesChecked.{SizesChecked};
ghost use Rattle.chassis.specs.StepCodeLaws.{RunDone};
ghost use Rattle.chassis.specs.InRun.{state_in, Kept};

use crate::stepping::Chassis;
use crate::{Sizes, begin, steps};
use protocol::Refusal;

// The sizes of a run, whatever form its steps are lent in. Words, logs and answers are told by their lengths.
// Ruled out: cards and counters exchanged (must-fail/started_exchanged).
pub fn checked_sizes(
    cards: u64,
    counters: u64,
    log_bytes: u64,
    steps: usize,
    words: usize,
    logs: usize,
    answers: usize,
) -> Result<Sizes, Refusal>
    ensures { SizesChecked cards counters log_bytes steps words logs answers result }
{
    if !begin::sizes_are_right(cards, counters, log_bytes, steps, words, logs, answers) {
        return Err(Refusal::BadSizes);
    }
    let sizes = Sizes::new(cards as usize, counters as usize, log_bytes as usize);
    Ok(sizes)
}

// The steps, one after the other.
fn run_steps(chassis: &mut Chassis, bytes: &[u8], count: usize, answers: &mut [u64])
    requires { (length bytes.now ≡ step_length * count) × (length answers.old ≡ count * answer_length) }
    ensures kept { Kept chassis.old chassis.new }
    ensures done { RunDone chassis.old.sizes (steps_of bytes.now) (state_in chassis.old) (state_in chassis.new) answers.new }
{
    for i in 0..count {
        let s = steps::step_from(bytes, steps::STEP_BYTES * i);
        chassis.answer_step(s, i, answers);
    }
}

// Runs the steps from fresh replicas, and lays the answer of each into its words.
// Ruled out: bytes past a card's own messages delivered as a message (must-fail/stray_bytes_delivered), a message of another card
// than the sender (must-fail/message_of_another_card).
pub fn run(
    cards: u64,
    counters: u64,
    log_bytes: u64,
    steps: &[u8],
    words: &mut [u64],
    logs: &mut [u8],
    answers: &mut [u64],
) -> Result<(), Refusal>
    ensures { ◌≡◌ {A = RunOutcome} (record { number = number_in result; words = words.new; logs = logs.new; answers = answers.new }) (run_bytes_on cards counters log_bytes steps.now words.old logs.old answers.old) }
{
    if steps.len() % steps::STEP_BYTES != 0 {
        return Err(Refusal::BadSizes);
    }
    let count = steps.len() / steps::STEP_BYTES;
    let sizes = checked_sizes(
        cards,
        counters,
        log_bytes,
        count,
        words.len(),
        logs.len(),
        answers.len(),
    )?;
    let mut chassis = Chassis::fresh(sizes, words, logs);
    run_steps(&mut chassis, steps, count, answers);
    Ok(())
}
