// The post's short record and its calls.
#![tactic(auto)]

mod arrivals;
mod lasts;
mod messages;
mod rules;
mod settling;
mod slots;
mod soundness;

ghost use Rattle.std.specs.Prelude.{◌≡◌, ◌≤◌, ◌<◌, max, T, length};
ghost use Rattle.laws.specs.Ladder.{refusal};
ghost use Rattle.frame.specs.Message.{counted, last_counter, stamp_of};
ghost use Rattle.frame.specs.Frame.{size};
ghost use Rattle.frame.specs.Refusal.{number, number_in};
ghost use Rattle.calls.specs.declared.Own.TheVariants.{Taking, Returning};
ghost use Rattle.calls.specs.View.{acks};
ghost use Rattle.post.specs.Record.{fresh};
ghost use Rattle.post.specs.Sound.{sound};
ghost use Rattle.post.specs.Inside.{acknowledgment_of};
ghost use Rattle.post.specs.Calls.{start_told, started, view_of, own_rows, Gives, answer_told, refused, spoke, came, received, value_told, valued, missing_told, missed};

use calls::{Own, Start};
use frame::{Kind, Message, Refusal};

// Document 01's record, its fields in 01's order and widths: numbers, arrays and a count, for any bytes of which `sound` answers.
#[derive(Clone, Copy)]
pub struct Post {
    pub posts: u8,
    pub own: u8,
    pub feeder: u8,
    pub places: u8,
    pub clock: u32,
    // the last counter of each post; at the own number, the last counter sent
    pub last: [u32; 16],
    // how many wait, in the first of the slots
    pub waits: u8,
    pub slots: [Message; 62],
    // settled takes and returns
    pub takes: u64,
    pub returns: u64,
    // 0 idle, 1 take not yet settled, 2 numbered and waiting, 3 holding
    pub phase: u8,
    pub order: u64,
}

// What a start hands back: a record in either case, since 01 gives one of zeros where it is refused (`started`).
#[derive(Clone, Copy)]
pub struct Started {
    pub post: Post,
    pub outcome: Result<(), Refusal>,
}

// Whether a frame was written, and whether the call brought the grant.
#[derive(Clone, Copy, Debug, PartialEq, Eq)]
pub struct Marks {
    pub wrote: bool,
    pub granted: bool,
}

// What a take, a return or a receive hands back: the next record, or the same one where it is refused.
#[derive(Clone, Copy)]
pub struct Answer {
    pub post: Post,
    pub outcome: Result<Marks, Refusal>,
}

#[derive(Clone, Copy, Debug, PartialEq, Eq)]
pub struct Missing {
    // bit r for post r
    pub set: u16,
    pub count: u32,
}

pub(crate) fn stamp(counter: u32, post: u8) -> u64
    ensures { result ≡ stamp_of counter post }
{
    256 * u64::from(counter) + u64::from(post)
}

// The last counter there is.
pub(crate) const LAST: u32 = 4294967295;

impl Post {
    // The most posts on a feeder.
    pub const POSTS: usize = 16;

    // The most messages of another sender that wait.
    pub const WAITING: u8 = 4;

    // The bytes of a frame.
    pub const FRAME: usize = frame::SIZE;

    // The phases. The record's is a byte, which may be none of them: an enum would be no plainer where `sound` tests it.
    pub const IDLE: u8 = 0;

    pub const ASKED: u8 = 1;

    pub const NUMBERED: u8 = 2;

    pub const HOLDING: u8 = 3;

    fn fresh(start: Start) -> Self
        ensures { result ≡ fresh start }
    {
        Self {
            posts: start.posts,
            own: start.own,
            feeder: start.feeder,
            places: start.places,
            clock: 0,
            last: [0; Self::POSTS],
            waits: 0,
            slots: [frame::BLANK; 62],
            takes: 0,
            returns: 0,
            phase: Self::IDLE,
            order: 0,
        }
    }

    pub fn start(start: Start) -> Started
        ensures { start_told result ≡ started start }
    {
        if rules::in_range(start) {
            return Started {
                post: Self::fresh(start),
                outcome: Ok(()),
            };
        }
        let none = Start {
            posts: 0,
            own: 0,
            feeder: 0,
            places: 0,
        };
        Started {
            post: Self::fresh(none),
            outcome: Err(Refusal::Record),
        }
    }

    // Document 01's rules hold.
    pub fn sound(self) -> bool
        ensures { result ≡ sound self }
    {
        self.is_sound()
    }

    fn is_sound(&self) -> bool
        ensures { result ≡ sound self.now }
    {
        self.checked().is_some()
    }

    pub(crate) fn done(self, wrote: bool, granted: bool) -> Answer
        ensures { answer_told result ≡ record { post = self; number = 0; wrote = wrote; granted = granted } }
    {
        Answer {
            post: self,
            outcome: Ok(Marks { wrote, granted }),
        }
    }

    fn refused(self, refusal: Refusal) -> Answer
        ensures { answer_told result ≡ refused self (number refusal) }
    {
        Answer {
            post: self,
            outcome: Err(refusal),
        }
    }

    // An own message goes out in one phase alone.
    #[tactic(auto, unfolding(crate::specs::Calls::own_rows, calls::specs::Table::phase_tests))]
    fn check_own(&self, own: Own, len: usize) -> Result<(), Refusal>
        ensures { number_in result ≡ refusal (own_rows own self.now len) }
    {
        let sound = self.is_sound();
        if !sound {
            return Err(Refusal::Record);
        }
        if len < Self::FRAME {
            return Err(Refusal::Buffer);
        }
        let row = own.row();
        if self.phase != row.from {
            return Err(row.other);
        }
        if LAST <= self.clock {
            return Err(Refusal::Spent);
        }
        Ok(())
    }

    // An own message is sent. Merged into take and give_back: called by them it costs 130 instructions and 1.3 KB of stack more.
    #[inline(always)]
    fn speak(mut self, own: Own, buf: &mut [u8]) -> Answer
        ensures { Gives (spoke own self buf.old) result buf.new }
    {
        if let Err(refusal) = self.check_own(own, buf.len()) {
            return self.refused(refusal);
        }
        let row = own.row();
        let m = Message::new(row.kind, self.own, self.clock + 1);
        let before = self.phase;
        frame::write(buf, self.feeder, m).unwrap();
        self.join(m, m.counter);
        self.phase = row.to;
        self.order = 0;
        self.settled(before, true)
    }

    // A truck is plugged in.
    pub fn take(self, buf: &mut [u8]) -> Answer
        ensures { Gives (spoke Taking self buf.old) result buf.new }
    {
        self.speak(Own::Taking, buf)
    }

    // The truck is full.
    pub fn give_back(self, buf: &mut [u8]) -> Answer
        ensures { Gives (spoke Returning self buf.old) result buf.new }
    {
        self.speak(Own::Returning, buf)
    }

    // A take or return comes in, and its acknowledgment goes out. What is required is no type (`join` says why).
    fn accept(&mut self, m: Message, buf: &mut [u8])
        requires { T (sound self.old) × (m.sender < self.old.posts) × T (counted m) × T (acks (view_of self.old) m) × (max self.old.clock m.counter < last_counter) × (size ≤ length buf.old) }
        ensures joins { self.new ≡ came self.old m }
        ensures leaves { buf.new ≡ acknowledgment_of self.old m buf.old }
    {
        let ack = Message::new(Kind::Ack, self.own, self.clock.max(m.counter) + 1);
        frame::write(buf, self.feeder, ack).unwrap();
        self.join(m, ack.counter);
    }

    // A frame has arrived.
    pub fn receive(mut self, frame: &[u8], buf: &mut [u8]) -> Answer
        ensures { Gives (received self frame.now buf.old) result buf.new }
    {
        let m = match self.arrival(frame, buf.len()) {
            Ok(m) => m,
            Err(refusal) => return self.refused(refusal),
        };
        let before = self.phase;
        let acknowledged = self.acknowledges(m);
        if acknowledged {
            self.accept(m, buf);
        } else {
            self.note(m);
        }
        self.settled(before, acknowledged)
    }

    // K + settled returns - settled takes.
    pub fn value(self) -> Result<i64, Refusal>
        ensures { value_told result ≡ valued self }
    {
        if !self.is_sound() {
            return Err(Refusal::Record);
        }
        Ok((self.places as u64 + self.returns) as i64 - self.takes as i64)
    }

    // The other posts whose last stamp is below the own unsettled take.
    pub fn missing(self) -> Result<Missing, Refusal>
        ensures { missing_told result ≡ missed self }
    {
        if !self.is_sound() {
            return Err(Refusal::Record);
        }
        if self.phase != Self::ASKED {
            return Ok(Missing { set: 0, count: 0 });
        }
        let t = self.own_stamp();
        let set = self.late(t);
        Ok(Missing {
            set,
            count: set.count_ones(),
        })
    }
}
