// Rounds over the links that are open: one waits on them, and they are not passed over. What is done for each delivery is one take; a link on which nothing
// waits any more, or whose message take declines, is left out of the rounds that follow.
ghost use Rattle.std.specs.Prelude.{◌≡◌, ◌+◌, ◌≤◌, ◌<◌};
ghost use Rattle.chassis_model.proofs.Places.{links};
ghost use Rattle.pending.specs.Ready.{PumpReady};

use chassis::{Sizes, stepping};

// What the rounds go over: the words and logs of a chassis that passes the checks, and the place of each link's next message.
#[derive(Drop)]
pub(crate) struct Pump<'a> {
    pub(crate) sizes: Sizes,
    pub(crate) words: &'a mut [u64],
    pub(crate) logs: &'a [u8],
    pub(crate) places: &'a mut [u64; stepping::LINKS],
    pub(crate) ghost ready: { PumpReady sizes words.now logs.now places.now },
}

// The links that are open, by their numbers: the first `count`, with room for every link.
#[derive(Drop)]
struct OpenLinks {
    numbers: [usize; stepping::LINKS],
    count: usize,
}

impl OpenLinks {
    ghost use Rattle.pending.specs.Rounds.{pump_state, pushed, Listed, ListedTo};

    // Puts a link behind the others.
    fn push(&mut self, which: usize)
        requires { self.old.count < links }
        ensures { self.new ≡ pushed which self.old }
    {
        self.numbers[self.count] = which;
        self.count += 1;
    }

    // Behind the others, the links to a receiver on which one waits, senders rising. None waits on a card's link to itself.
    fn push_waiting(&mut self, pump: &Pump, receiver: usize)
        requires { (receiver < pump.now.sizes.cards) × (self.old.count + pump.now.sizes.cards ≤ links) }
        ensures { ListedTo pump.now.sizes (pump_state pump.now) receiver pump.now.sizes.cards self.old self.new }
    {
        for sender in 0..pump.sizes.cards {
            let which = stepping::link(receiver, sender);
            if pump.does_one_wait(receiver, sender) {
                self.push(which);
            }
        }
    }

    // The links on which one waits, receivers rising.
    fn waiting(pump: &Pump) -> OpenLinks
        ensures { Listed pump.now.sizes (pump_state pump.now) pump.now.sizes.cards result }
    {
        let mut list = OpenLinks {
            numbers: [0; stepping::LINKS],
            count: 0,
        };
        for receiver in 0..pump.sizes.cards {
            list.push_waiting(pump, receiver);
        }
        list
    }
}

// What came of a link's turn, where one waited: its message was declined, or it was taken and another waits, or none.
#[derive(Clone, Copy)]
enum Turn {
    Declined,
    Open,
    Done,
}

impl Pump<'_> {
    ghost use Rattle.pending.specs.Rounds.{pump_state, one_waits, Kept, TurnReady, TurnDone, RoundReady, RoundDone, PumpDone};

    // Does one wait on this link?
    fn does_one_wait(&self, receiver: usize, sender: usize) -> bool
        requires { (receiver < self.now.sizes.cards) × (sender < self.now.sizes.cards) }
        ensures { result ≡ one_waits self.now.sizes (pump_state self.now) receiver sender }
    {
        let had = stepping::received(self.sizes, self.words, receiver, sender);
        let made = stepping::received(self.sizes, self.words, sender, sender);
        had < made
    }

    // Takes the turn of a link on which one waits.
    fn take_turn(&mut self, which: usize) -> Turn
        requires { TurnReady self.old.sizes which (pump_state self.old) }
        ensures kept { Kept self.old self.new }
        ensures done { TurnDone self.old.sizes which (pump_state self.old) result (pump_state self.new) }
    {
        let receiver = which / stepping::MOST_CARDS;
        let sender = which % stepping::MOST_CARDS;
        let handed = stepping::hand_over(
            self.sizes,
            receiver,
            sender,
            self.places[which],
            self.words,
            self.logs,
        );
        if handed.taken.is_err() {
            return Turn::Declined;
        }
        self.places[which] = handed.behind;
        if self.does_one_wait(receiver, sender) {
            Turn::Open
        } else {
            Turn::Done
        }
    }

    // A round over the list, with `before` deliveries made before it. Returns how many are made then. The links that are still open stay in the list: each is
    // put at its front again, no further on than it was read.
    fn round(&mut self, most: u64, before: u64, list: &mut OpenLinks) -> u64
        requires { RoundReady self.old.sizes most (pump_state self.old) list.old }
        ensures kept { Kept self.old self.new }
        ensures done { RoundDone self.old.sizes most before (pump_state self.old) list.old result (pump_state self.new) list.new }
    {
        let mut made = before;
        let count = list.count;
        list.count = 0;
        for next in 0..count {
            if most <= made {
                break;
            }
            let which = list.numbers[next];
            match self.take_turn(which) {
                Turn::Declined => {}
                Turn::Open => {
                    made += 1;
                    list.push(which);
                }
                Turn::Done => made += 1,
            }
        }
        made
    }

    // Rounds until `most` deliveries are made or no link is open. Returns how many were made.
    pub(crate) fn run(&mut self, most: u64) -> u64
        ensures kept { Kept self.old self.new }
        ensures done { PumpDone self.old.sizes most (pump_state self.old) result (pump_state self.new) }
    {
        let mut list = OpenLinks::waiting(self);
        let mut made: u64 = 0;
        // No index: on until none is open.
        while 0 < list.count && made < most {
            made = self.round(most, made, &mut list);
        }
        made
    }
}
