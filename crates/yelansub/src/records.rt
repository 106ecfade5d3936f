// A run of steps that the host lends as records of four numbers, above the step core that the run over bytes uses.
ghost use Rattle.std.specs.Prelude.{◌≡◌};
ghost use Rattle.protocol.specs.Refusals.{number_in};
ghost use Rattle.chassis_model.specs.Run.{RunOutcome, run_on};

use crate::number;
use chassis::run;
use chassis::stepping::Chassis;
use chassis_model::Step;
use protocol::Refusal;

// Runs the steps from fresh replicas, and lays the answer of each into its words.
fn run_records(
    cards: u64,
    counters: u64,
    log_bytes: u64,
    steps: &[Step],
    words: &mut [u64],
    logs: &mut [u8],
    answers: &mut [u64],
) -> Result<(), Refusal>
    ensures { ◌≡◌ {A = RunOutcome} (record { number = number_in result; words = words.new; logs = logs.new; answers = answers.new }) (run_on cards counters log_bytes steps.now words.old logs.old answers.old) }
{
    let sizes = run::checked_sizes(
        cards,
        counters,
        log_bytes,
        steps.len(),
        words.len(),
        logs.len(),
        answers.len(),
    )?;
    let mut chassis = Chassis::fresh(sizes, words, logs);
    for (i, s) in steps.iter().enumerate() {
        chassis.answer_step(*s, i, answers);
    }
    Ok(())
}

// Runs the steps from fresh replicas: the number, and of each step its answer. It is the run over bytes in all but the form of its steps
// (claim `same_run`).
// Ruled out: answers that are not two for each step (must-fail/answers_not_counted), and a declined run that changes the words.
pub fn yelansub_run_records(
    cards: u64,
    counters: u64,
    log_bytes: u64,
    steps: &[Step],
    words: &mut [u64],
    logs: &mut [u8],
    answers: &mut [u64],
) -> u64
    ensures { ◌≡◌ {A = RunOutcome} (record { number = result; words = words.new; logs = logs.new; answers = answers.new }) (run_on cards counters log_bytes steps.now words.old logs.old answers.old) }
{
    number(run_records(cards, counters, log_bytes, steps, words, logs, answers))
}
