// The call: its checks, and then the rounds.
ghost use Rattle.std.specs.Prelude.{◌≡◌};
ghost use Rattle.chassis_model.specs.Told.{delivered_answer};
ghost use Rattle.chassis_model.specs.Pending.{DeliverOutcome, deliver_pending_on};

use crate::rounds::Pump;
use chassis::{Sizes, begin, stepping};
use lent::Replicas;
use protocol::Refusal;

// Makes at most `most` of the deliveries that wait, in rounds, and answers how many it made.
pub fn deliver_pending(
    cards: u64,
    counters: u64,
    log_bytes: u64,
    most: u64,
    words: &mut [u64],
    logs: &[u8],
) -> Result<u64, Refusal>
    ensures { ◌≡◌ {A = DeliverOutcome} (record { answer = delivered_answer result; words = words.new }) (deliver_pending_on cards counters log_bytes most words.old logs.now) }
{
    if !begin::is_chassis(cards, counters, log_bytes, words.len(), logs.len()) {
        return Err(Refusal::BadSizes);
    }
    let sizes = Sizes::new(cards as usize, counters as usize, log_bytes as usize);
    let replicas = Replicas { sizes, words };
    if !replicas.are_in_place() {
        return Err(Refusal::BadReplica);
    }
    if !replicas.are_rows_well_formed() {
        return Err(Refusal::BadRow);
    }
    let mut places: [u64; stepping::LINKS] = [0; stepping::LINKS];
    if !replicas.find_all_places(logs, &mut places) {
        return Err(Refusal::BadLog);
    }
    let mut pump = Pump {
        sizes,
        words,
        logs,
        places: &mut places,
    };
    Ok(pump.run(most))
}
