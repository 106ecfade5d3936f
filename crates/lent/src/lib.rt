// What a call over a chassis is lent: whether the replicas and the logs are right, and where each link's next message stands.
#![tactic(auto)]

ghost use Rattle.std.specs.Prelude.{◌≡◌, ◌<◌};
ghost use Rattle.chassis.specs.StepCodeLaws.{WordsFit};

mod checks;
mod places;

use chassis::{Sizes, stepping};

// The replicas of a chassis, in words that are lent: as many as it has cards.
#[derive(Clone, Copy)]
pub struct Replicas<'a> {
    pub sizes: Sizes,
    pub words: &'a [u64],
    pub ghost fit: { WordsFit sizes words.now },
}

impl Replicas<'_> {
    ghost use Rattle.lent.specs.Lent.{lent_replica, received};

    // The replica of a card.
    fn replica(&self, card: usize) -> &[u64]
        requires { card < self.now.sizes.cards }
        ensures { result.now ≡ lent_replica self.now card }
    {
        &self.words[self.sizes.replica(card)]
    }

    // How many of the sender's messages the receiver has had. Of its own a card has had those that it has made.
    fn received(&self, receiver: usize, sender: usize) -> u64
        requires { (receiver < self.now.sizes.cards) × (sender < self.now.sizes.cards) }
        ensures { result ≡ received self.now receiver sender }
    {
        stepping::received(self.sizes, self.words, receiver, sender)
    }
}
