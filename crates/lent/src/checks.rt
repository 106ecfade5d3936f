// The checks of every replica, before a log is looked at: numbers 1 and 2.
ghost use Rattle.std.specs.Prelude.{◌≡◌, true, ◌≤◌, ◌<◌};
ghost use Rattle.protocol.specs.Functions.{all_below};
ghost use Rattle.replica_model.specs.Calls.{in_place, row_well_formed};
ghost use Rattle.lent.specs.Lent.{lent_replica, are_placed, are_formed};

use crate::Replicas;
use layout::words;

impl Replicas<'_> {
    fn is_card_in_place(&self, card: usize) -> bool
        requires { (1 ≤ self.now.sizes.counters) × (card < self.now.sizes.cards) }
        ensures { result ≡ in_place self.now.sizes.cards self.now.sizes.counters card (lent_replica self.now card) }
    {
        words::is_in_place(
            self.replica(card),
            self.sizes.cards,
            self.sizes.counters,
            card,
        )
    }

    // Number 1's test: is every replica in its place?
    pub fn are_in_place(&self) -> bool
        requires { 1 ≤ self.now.sizes.counters }
        ensures { result ≡ are_placed self.now }
    {
        (0..self.sizes.cards).all(|card| self.is_card_in_place(card))
    }

    fn are_card_rows_well_formed(&self, card: usize) -> bool
        requires { (1 ≤ self.now.sizes.counters) × (are_placed self.now ≡ true) × (card < self.now.sizes.cards) }
        ensures { result ≡ all_below self.now.sizes.counters (row_well_formed (lent_replica self.now card)) }
    {
        words::are_rows_well_formed(self.replica(card))
    }

    // Number 2's test: is every row of every replica well-formed?
    pub fn are_rows_well_formed(&self) -> bool
        requires { (1 ≤ self.now.sizes.counters) × (are_placed self.now ≡ true) }
        ensures { result ≡ are_formed self.now }
    {
        (0..self.sizes.cards).all(|card| self.are_card_rows_well_formed(card))
    }
}
