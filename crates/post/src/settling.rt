// What is settled leaves the slots and is counted, and the answer says whether that brought the grant.
ghost use Rattle.std.specs.Prelude.{◌≡◌};
ghost use Rattle.post.specs.Settle.{tallied, phase_after, settle};
ghost use Rattle.post.specs.Calls.{answer_told, answer};
ghost use Rattle.post.specs.Inside.{Countable};

use crate::{Answer, Post, slots};

// A number for a number: the record's phase is a byte.
#[tactic(auto, unfolding(crate::specs::Settle::phase_after))]
fn phase_after(phase: u8, order: u64, free: bool) -> u8
    ensures { result ≡ phase_after phase order free }
{
    match phase {
        Post::IDLE | Post::HOLDING => phase,
        _ if order == 0 => Post::ASKED,
        _ if free => Post::HOLDING,
        _ => Post::NUMBERED,
    }
}

impl Post {
    // `Countable` is required here and no type: a record of any bytes is not countable.
    // What is settled leaves the slots and is counted.
    fn tally(&mut self)
        requires { Countable self.old }
        ensures { self.new ≡ tallied self.old }
    {
        let floor = self.floor();
        let gone = slots::leaving(self.waiting(), floor, self.own, self.takes);
        let n = self.waits as usize;
        slots::leave(&mut self.slots[..n], gone.count);
        self.waits -= gone.count as u8;
        self.takes = gone.takes;
        self.returns += gone.returns;
        if self.phase == Self::ASKED {
            self.order = gone.order.unwrap_or(0);
        }
    }

    // Then a numbered take is granted if there is a place for it.
    fn settle(&mut self)
        requires { Countable self.old }
        ensures { self.new ≡ settle self.old }
    {
        self.tally();
        self.phase = phase_after(self.phase, self.order, self.is_free());
    }

    // What a call gives back once the record has settled, where the phase, a byte, was `before`.
    pub(crate) fn settled(mut self, before: u8, wrote: bool) -> Answer
        requires { Countable self }
        ensures { answer_told result ≡ answer before (settle self) wrote }
    {
        self.settle();
        let granted = before != Self::HOLDING && self.phase == Self::HOLDING;
        self.done(wrote, granted)
    }
}
