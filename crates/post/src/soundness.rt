// Document 01's rules on a record, in three groups.
ghost use Rattle.std.specs.Prelude.{◌≡◌};
ghost use Rattle.laws.specs.Ladder.{every};
ghost use Rattle.post.specs.Sound.{number_rules, slot_rules, count_rules, sound};
ghost use Rattle.post.specs.Inside.{InBounds, Looked};

use crate::slots::Seen;
use crate::{Post, lasts, rules};
use calls::Start;

impl Post {
    #[tactic(auto, unfolding(crate::specs::Sound::number_rules))]
    fn numbers_sound(&self) -> bool
        ensures { result ≡ every (number_rules self.now) }
    {
        let start = Start {
            posts: self.posts,
            own: self.own,
            feeder: self.feeder,
            places: self.places,
        };
        rules::in_range(start)
            && self.phase <= Self::HOLDING
            && self.waits <= 62
            && self.lasts_fit()
    }

    fn slots_checked(&self) -> Option<Seen>
        requires { InBounds self.now }
        ensures { Looked self.now (every (slot_rules self.now)) result }
    {
        let seen = self.look(self.floor())?;
        let fits = (self.posts != 1 || self.waits == 0)
            && lasts::few(&seen.counts[..self.posts as usize], self.own)
            && rules::own_fits(self.phase, seen.takes, seen.returns, seen.end);
        fits.then_some(seen)
    }

    #[tactic(auto, unfolding(crate::specs::Sound::count_rules))]
    fn counts_sound(&self) -> bool
        ensures { result ≡ every (count_rules self.now) }
    {
        self.sum_fits() && self.order_fits()
    }

    // None where one of document 01's rules does not hold, and else what waits.
    #[tactic(auto, unfolding(crate::specs::Sound::sound))]
    pub(crate) fn checked(&self) -> Option<Seen>
        ensures { Looked self.now (sound self.now) result }
    {
        if !self.numbers_sound() || !self.counts_sound() {
            return None;
        }
        self.slots_checked()
    }
}
