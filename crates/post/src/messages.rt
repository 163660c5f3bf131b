// The record with a message sent or received, before anything is settled.
ghost use Rattle.std.specs.Prelude.{◌≡◌, ◌≤◌, ◌<◌, T};
ghost use Rattle.post.specs.Record.{waiting_of};
ghost use Rattle.post.specs.Sound.{sound};
ghost use Rattle.post.specs.Calls.{own_stamp};
ghost use Rattle.post.specs.Inside.{joined, noted};

use crate::{Post, slots};
use frame::Message;

impl Post {
    // The messages that wait.
    pub(crate) fn waiting(&self) -> &[Message]
        requires { self.now.waits ≤ 62 }
        ensures { result.now ≡ waiting_of self.now }
    {
        &self.slots[..self.waits as usize]
    }

    // The stamp of the own take that waits; 0 where none does, as the definition `own_stamp` has it.
    pub(crate) fn own_stamp(&self) -> u64
        requires { self.now.waits ≤ 62 }
        ensures { result ≡ own_stamp self.now.own (waiting_of self.now) }
    {
        slots::own_stamp(self.waiting(), self.own).unwrap_or(0)
    }

    // A sound record and a sender of the feeder are required, not a type for them: between `join` and `settle` the record is not sound.
    // A take or return joins those that wait, and the clock and the last counter sent are set to `clock`.
    pub(crate) fn join(&mut self, m: Message, clock: u32)
        requires { T (sound self.old) × (m.sender < self.old.posts) }
        ensures { self.new ≡ joined self.old m clock }
    {
        let n = self.waits as usize;
        slots::put(&mut self.slots[..=n], m);
        self.waits += 1;
        self.last[m.sender as usize] = m.counter;
        self.last[self.own as usize] = clock;
        self.clock = clock;
    }

    // An acknowledgment is received.
    pub(crate) fn note(&mut self, m: Message)
        requires { T (sound self.old) × (m.sender < self.old.posts) }
        ensures { self.new ≡ noted self.old m }
    {
        self.last[m.sender as usize] = m.counter;
        self.clock = self.clock.max(m.counter);
    }
}
