// Number 15's test. Each log is walked once; on the way the place of each link's next message is found.
ghost use Rattle.std.specs.Prelude.{◌≡◌, IfSome, ◌+◌, ◌*◌, ◌≤◌, ◌<◌, length, drop, leb};
ghost use Rattle.wire.specs.Told.{unless_0};
ghost use Rattle.protocol.specs.Functions.{all_below};
ghost use Rattle.chassis_model.specs.Log.{end_of};
ghost use Rattle.lent.specs.Lent.{received, numbered_length, Walked, NextStop, Marked, Found, AllFound};

use crate::Replicas;
use chassis::stepping;
use wire::decode;
use wire::reader::Reader;

// The length of the message that stands from `at` on, if it is the sender's of this number.
fn message_length(log: &[u8], at: usize, sender: usize, number: u64) -> Option<usize>
    requires { at ≤ length log.now }
    ensures length { result ≡ unless_0 (numbered_length sender number (drop at log.now)) }
    ensures inside { IfSome result (λ n. at + n ≤ length log.now) }
{
    let rest = &log[at..];
    let length = decode::front_length(rest, wire::VERSION_2)?;
    let header = Reader { src: rest, at: 0 }.header();
    if header.sender as usize == sender && header.sequence == number {
        Some(length)
    } else {
        None
    }
}

// From the end of the sender's first `from` messages, which is at `at`, to the end of its first `to`, if they are there.
fn walk(log: &[u8], sender: usize, from: u64, to: u64, at: usize) -> Option<usize>
    requires { (at ≡ end_of from log.now) × (from ≤ to) }
    ensures { Walked log.now sender from to result }
{
    let mut place = at;
    for n in from..to {
        place += message_length(log, place, sender, n + 1)?;
    }
    Some(place)
}

impl Replicas<'_> {
    // Has no card had more of the sender's messages than it has made?
    fn is_none_ahead(&self, sender: usize, made: u64) -> bool
        requires { sender < self.now.sizes.cards }
        ensures { result ≡ all_below self.now.sizes.cards (λ i. leb (received self.now i sender) made) }
    {
        for receiver in 0..self.sizes.cards {
            if made < self.received(receiver, sender) {
                return false;
            }
        }
        true
    }

    // The smallest number above `passed` of the sender's messages that some card has had, or `made`.
    fn next_stop(&self, sender: usize, passed: u64, made: u64) -> u64
        requires { (sender < self.now.sizes.cards) × (passed < made) }
        ensures { NextStop self.now sender passed made self.now.sizes.cards result }
    {
        let mut stop = made;
        for receiver in 0..self.sizes.cards {
            let had = self.received(receiver, sender);
            if passed < had {
                stop = stop.min(had);
            }
        }
        stop
    }

    // The next message of every card that has had `number` of the sender's messages stands at `at`.
    fn mark(&self, sender: usize, number: u64, at: u64, places: &mut [u64; stepping::LINKS])
        requires { sender < self.now.sizes.cards }
        ensures { Marked self.now sender number at self.now.sizes.cards places.old places.new }
    {
        for receiver in 0..self.sizes.cards {
            if self.received(receiver, sender) == number {
                places[stepping::link(receiver, sender)] = at;
            }
        }
    }

    // The sender's log: does it begin with the messages that it has made, and has no card had more? The places of its links are found.
    fn find_places(&self, log: &[u8], sender: usize, places: &mut [u64; stepping::LINKS]) -> bool
        requires { sender < self.now.sizes.cards }
        ensures { Found self.now log.now sender places.old result places.new }
    {
        let made = self.received(sender, sender);
        if !self.is_none_ahead(sender, made) {
            return false;
        }
        self.mark(sender, 0, 0, places);
        let mut n: u64 = 0;
        let mut at: usize = 0;
        // No index: from one stop to the next.
        while n < made {
            let stop = self.next_stop(sender, n, made);
            let Some(place) = walk(log, sender, n, stop, at) else {
                return false;
            };
            self.mark(sender, stop, place as u64, places);
            n = stop;
            at = place;
        }
        true
    }

    // Number 15's test, and every place.
    pub fn find_all_places(&self, logs: &[u8], places: &mut [u64; stepping::LINKS]) -> bool
        requires { length logs.now ≡ self.now.sizes.cards * self.now.sizes.log_bytes }
        ensures { AllFound self.now logs.now result places.new }
    {
        for sender in 0..self.sizes.cards {
            let log = &logs[self.sizes.log(sender)];
            if !self.find_places(log, sender, places) {
                return false;
            }
        }
        true
    }
}
