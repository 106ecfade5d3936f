// The calls that make a message: count and clear. Each writes it to the output and applies it to the own replica.
#![tactic(auto)]

ghost use Rattle.std.specs.Prelude.{◌≡◌, ◌≤◌};
ghost use Rattle.protocol.specs.Refusals.{number_in};
ghost use Rattle.protocol.specs.Limits.{most_amount};
ghost use Rattle.protocol.specs.Checks.{first_failing};
ghost use Rattle.layout.specs.WordsLaws.{RowInside};
ghost use Rattle.sending.specs.SendLaws.{row_checks};

use layout::words;
use layout::words::Row;
use protocol::Refusal;

pub mod clearing;
pub mod counting;

// What both ask of the row before a message is made (`making_checks` has all the checks and their order): it is well-formed (else 2), and its card has a message left and
// so many increments (else 4). It is compiled into both: called, each would count more instructions.
#[inline(always)]
fn check_row(words: &[u64], row: Row, units: u64) -> Result<(), Refusal>
    requires { RowInside words.now row.cards row.counter × (units ≤ most_amount) }
    ensures { number_in result ≡ first_failing (row_checks words.now row.counter units) }
{
    if !row.is_well_formed(words) {
        return Err(Refusal::BadRow);
    }
    let own = words::own_card(words);
    let messages = words::messages_at(words, row.cards, own);
    let counted = words::increments_at(words, own);
    if (messages != protocol::MAX) & (counted + units <= protocol::MAX) {
        Ok(())
    } else {
        Err(Refusal::Exhausted)
    }
}
