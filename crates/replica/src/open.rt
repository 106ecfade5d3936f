// Opening a replica: a fresh one is written into the caller's words.
ghost use Rattle.std.specs.Prelude.{◌≡◌, length};
ghost use Rattle.protocol.specs.Refusals.{number_in};
ghost use Rattle.replica_model.specs.Layout.{replica_length, fresh_words};
ghost use Rattle.replica_model.specs.Calls.{OpenOutcome, open_on};

use layout::words;
use protocol::Refusal;

// Whatever the words were: a fresh replica of card `own`.
// Ruled out: a word that stays, and a fresh replica of another card (must-fail/fresh_of_another_card).
pub fn write_fresh(words: &mut [u64], cards: u64, counters: u64, own: u64)
    requires { length words.old ≡ replica_length cards counters }
    ensures { words.new ≡ fresh_words cards counters own }
{
    words.fill(0);
    words::set_head(words, cards, counters, own);
}

// Ruled out: a refusal that has already written a word, a fresh replica of another card.
pub fn open(words: &mut [u64], cards: u64, counters: u64, own: u64) -> Result<(), Refusal>
    ensures { ◌≡◌ {A = OpenOutcome} (record { number = number_in result; words = words.new }) (open_on words.old cards counters own) }
{
    if !words::fits(words.len(), cards, counters, own) {
        return Err(Refusal::BadReplica);
    }
    write_fresh(words, cards, counters, own);
    Ok(())
}
