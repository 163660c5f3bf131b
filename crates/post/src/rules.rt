// The rules of a sound record.
ghost use Rattle.std.specs.Prelude.{◌≡◌};
ghost use Rattle.calls.specs.Start.{in_range};
ghost use Rattle.post.specs.Settle.{free};
ghost use Rattle.post.specs.Sound.{own_fits, sum_fits, order_fits};

use crate::{Post, lasts};
use calls::Start;
use frame::Kind;

#[tactic(auto, unfolding(calls::specs::Start::in_range))]
pub(crate) fn in_range(start: Start) -> bool
    ensures { result ≡ in_range start }
{
    (1..=16).contains(&start.posts) && start.own < start.posts && (1..=16).contains(&start.places)
}

// The phase is the record's byte, and the rest what a look found, as the definition `own_fits` has them.
#[tactic(auto, unfolding(crate::specs::Sound::own_fits))]
pub(crate) fn own_fits(phase: u8, takes: u8, returns: u8, end: u8) -> bool
    ensures { result ≡ own_fits phase takes returns end }
{
    match phase {
        Post::IDLE => takes == 0 && returns <= 1,
        Post::ASKED => takes == 1 && returns <= 1 && end == Kind::Take as u8,
        _ => takes == 0 && returns == 0,
    }
}

impl Post {
    // Settled takes, settled returns and waiting messages sum to at most the sum of the last counters.
    #[tactic(auto, unfolding(crate::specs::Sound::sum_fits), using(crate::proofs::Works::Rules::sum_is))]
    pub(crate) fn sum_fits(&self) -> bool
        ensures { result ≡ sum_fits self.now }
    {
        let most = lasts::sum(&self.last);
        self.takes
            .checked_add(self.returns)
            .and_then(|n| n.checked_add(u64::from(self.waits)))
            .is_some_and(|n| n <= most)
    }

    // There is a place for the take of the order number.
    #[tactic(auto, unfolding(crate::specs::Settle::free))]
    pub(crate) fn is_free(&self) -> bool
        ensures { result ≡ free self.now }
    {
        self.order.saturating_sub(self.returns) <= u64::from(self.places)
    }

    #[tactic(auto, unfolding(crate::specs::Sound::order_fits))]
    pub(crate) fn order_fits(&self) -> bool
        ensures { result ≡ order_fits self.now.phase self.now.order self.now.takes (free self.now) }
    {
        let free = self.is_free();
        match self.phase {
            Self::IDLE | Self::ASKED => self.order == 0,
            Self::HOLDING => (1..=self.takes).contains(&self.order) && free,
            _ => (1..=self.takes).contains(&self.order) && !free,
        }
    }
}
