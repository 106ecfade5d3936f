// A log is walked from its first byte, a message at a time, and on the way its increments are counted.
ghost use Rattle.std.specs.Prelude.{◌≡◌, ◌*◌, ◌≤◌, true, length, leb, IfSome};
ghost use Rattle.wire.specs.Number.{int_width};
ghost use Rattle.wire.specs.Message.{message_at, reads};
ghost use Rattle.conversion.specs.ClaimTerms.{one_if_increment};
ghost use Rattle.converter.specs.MeasureLaws.{measured};

use wire::reader::Reader;
use wire::{Kind, decode};

// Of messages: whether no amount is above 1, and how many are increments.
#[derive(Clone, Copy)]
pub(crate) struct Found {
    pub by_one: bool,
    pub increments: usize,
}

// Of one message.
fn see(message: &[u8], version: u32) -> Found
    requires { reads version message.now ≡ true }
    ensures { (result.by_one ≡ leb (message_at version message.now).amount 1) × (result.increments ≡ one_if_increment (message_at version message.now)) }
{
    let mut rest = Reader {
        src: message,
        at: 0,
    };
    let header = rest.header();
    if header.kind == Kind::Clear as u32 {
        return Found {
            by_one: true,
            increments: 0,
        };
    }
    rest.increment();
    Found {
        by_one: rest.amount(version) <= 1,
        increments: 1,
    }
}

// Of all messages of the log, if the bytes are messages of the version end to end.
pub(crate) fn measure(log: &[u8], version: u32) -> Option<Found>
    ensures found { result ≡ measured version log.now }
    ensures few { IfSome result (λ found. int_width * found.increments ≤ length log.now) }
{
    let mut by_one = true;
    let mut increments: usize = 0;
    let mut rest = log;
    // No index: what was read is taken off the front. An iterator of its own would hold these lines and a type.
    while !rest.is_empty() {
        let length = decode::front_length(rest, version)?;
        let (message, behind) = rest.split_at(length);
        let seen = see(message, version);
        by_one &= seen.by_one;
        increments += seen.increments;
        rest = behind;
    }
    Some(Found { by_one, increments })
}
