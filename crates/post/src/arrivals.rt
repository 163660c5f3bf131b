// A frame that arrives: the first row of the table that refuses it, and its message where none does.
ghost use Rattle.std.specs.Prelude.{◌≡◌, ◌<◌, T};
ghost use Rattle.laws.specs.Ladder.{refusal};
ghost use Rattle.laws.specs.Lists.{many};
ghost use Rattle.frame.specs.Message.{by};
ghost use Rattle.frame.specs.Refusal.{number_in};
ghost use Rattle.calls.specs.View.{acks};
ghost use Rattle.calls.specs.Table.{sender_tests, turn_tests};
ghost use Rattle.post.specs.Record.{waiting_of};
ghost use Rattle.post.specs.Sound.{sound};
ghost use Rattle.post.specs.Calls.{view_of};
ghost use Rattle.post.specs.Inside.{Arrives};

use crate::{LAST, Post, slots};
use frame::{Kind, Message, Refusal};

impl Post {
    // Beside the tests of `frame::read`, which let any sender below 16 pass: a row of another table decides here.
    #[tactic(auto, unfolding(calls::specs::Table::sender_tests))]
    fn check_sender(&self, m: Message) -> Result<(), Refusal>
        ensures { number_in result ≡ refusal (sender_tests (view_of self.now) m) }
    {
        Kind::try_from(m.kind)?;
        if m.sender == self.own || self.posts <= m.sender {
            return Err(Refusal::Sender);
        }
        if m.counter == 0 {
            return Err(Refusal::Counter);
        }
        Ok(())
    }

    // Whether a message that comes in is acknowledged.
    pub(crate) fn acknowledges(&self, m: Message) -> bool
        ensures { result ≡ acks (view_of self.now) m }
    {
        slots::is_counted(m)
    }

    // The refusals of a message by its turn, where so many of its sender wait. What is required is no type (`join` says why).
    #[tactic(auto, unfolding(calls::specs::Table::turn_tests))]
    fn check_turn(&self, m: Message, count: u8) -> Result<(), Refusal>
        requires { T (sound self.now) × (m.sender < self.now.posts) × (count ≡ many (by m.sender) (waiting_of self.now)) }
        ensures { number_in result ≡ refusal (turn_tests (view_of self.now) m) }
    {
        if m.counter <= self.last[m.sender as usize] {
            return Err(Refusal::Turn);
        }
        if self.acknowledges(m) && (LAST <= self.clock || LAST <= m.counter) {
            return Err(Refusal::Spent);
        }
        if slots::is_counted(m) && Self::WAITING <= count {
            return Err(Refusal::Waiting);
        }
        Ok(())
    }

    // The message of a frame that has arrived, with so many bytes lent.
    pub(crate) fn arrival(&self, frame: &[u8], len: usize) -> Result<Message, Refusal>
        ensures { Arrives self.now frame.now len result }
    {
        let Some(seen) = self.checked() else {
            return Err(Refusal::Record);
        };
        if len < Self::FRAME {
            return Err(Refusal::Buffer);
        }
        let f = frame::split(frame);
        frame::check_form(frame.len(), f)?;
        if f.feeder != self.feeder {
            return Err(Refusal::Feeder);
        }
        let m = f.message;
        self.check_sender(m)?;
        self.check_turn(m, seen.counts[m.sender as usize])?;
        Ok(m)
    }
}
