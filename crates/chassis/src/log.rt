// A card's log: its messages one after the other, walked from the front.
ghost use Rattle.std.specs.Prelude.{◌≡◌, MatchOption};
ghost use Rattle.chassis_model.specs.Log.{span_at, waiting_part, waiting_span};
ghost use Rattle.chassis.specs.PartOf.{PartOf};

use chassis_model::Span;
use wire::decode;

// Where message number `q` stands, if the log begins with that many messages.
fn place(log: &[u8], q: u64) -> Option<Span>
    ensures { MatchOption result (waiting_span q log.now ≡ span_at 0 0) (λ found. waiting_span q log.now ≡ found) }
{
    if q == 0 {
        return None;
    }
    let mut at = 0;
    for _ in 1..q {
        at += decode::front_length(&log[at..], wire::VERSION_2)?;
    }
    let length = decode::front_length(&log[at..], wire::VERSION_2)?;
    Some(Span {
        start: at as u64,
        length: length as u64,
    })
}

// Where message number `q` stands in the log, for hosts that take no part of a slice; 0 and 0 stand for "No message waiting".
// Ruled out: "none" while a message waits (must-fail/none_while_one_waits), another message than the one asked for
// (must-fail/earlier_message).
pub fn waiting_span(log: &[u8], q: u64) -> Span
    ensures { result ≡ waiting_span q log.now }
{
    place(log, q).unwrap_or(Span {
        start: 0,
        length: 0,
    })
}

// Hands out the part of the log where message number `q` stands, not a copy; an empty part, at the log's front, stands
// for "No message waiting".
// Ruled out: what `waiting_span` rules out, a copy, and the same bytes at another place, as the earlier of two equal messages
// (must-fail/earlier_of_equal_messages).
pub fn waiting(log: &[u8], q: u64) -> &[u8]
    ensures { PartOf log.entry (waiting_span q log.now).start (waiting_part q log.now) result }
{
    let place = waiting_span(log, q);
    let start = place.start as usize;
    let end = start + place.length as usize;
    &log[start..end]
}
