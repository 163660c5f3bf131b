// Messages in the slots.
ghost use Rattle.std.specs.Prelude.{◌≡◌, take, ◌≤◌, ◌<◌, ◌+◌, ◌^◌, length, ◌-◌, ◌++◌, drop, replicate, option_map};
ghost use Rattle.std.specs.List.{find, list_all};
ghost use Rattle.laws.specs.Lists.{leading, put, Rising};
ghost use Rattle.frame.specs.Message.{blank, counted, stamp, own_take};
ghost use Rattle.post.specs.Sound.{fair, is_blank};
ghost use Rattle.post.specs.Inside.{InBounds, in_order, Looked, Left};

use crate::{Post, stamp};
use frame::{Kind, Message};

// What a look over the slots finds of the messages that wait there.
#[derive(Clone, Copy)]
pub(crate) struct Seen {
    // how many of each sender: one number a post, since there is no heap
    pub counts: [u8; 16],
    // the own takes and returns, and the kind of the last of them, by its number as the definition `own_fits` has it
    pub takes: u8,
    pub returns: u8,
    pub end: u8,
}

pub(crate) fn is_counted(m: Message) -> bool
    ensures { result ≡ counted m }
{
    matches!(Kind::try_from(m.kind), Ok(Kind::Take | Kind::Return))
}

// A take or return, of one of the posts with these last counters, and its counter from 1 to that post's last.
#[tactic(auto, unfolding(crate::specs::Sound::fair))]
fn is_fair(m: &Message, last: &[u32]) -> bool
    ensures { result ≡ fair (length last.now) last.now m.now }
{
    last.get(usize::from(m.sender))
        .is_some_and(|c| is_counted(*m) && (1..=*c).contains(&m.counter))
}

// Each of the slots is zero.
#[tactic(auto, unfolding(crate::specs::Sound::is_blank))]
fn are_blank(slots: &[Message]) -> bool
    ensures { result ≡ list_all is_blank slots.now }
{
    slots.iter().all(|&m| m == frame::BLANK)
}

impl Post {
    // None where a waiting message is not fair, the stamps do not rise from the floor, or a slot after them is not zero.
    pub(crate) fn look(&self, floor: u64) -> Option<Seen>
        requires { InBounds self.now }
        ensures { Looked self.now (in_order self.now floor) result }
    {
        let (waiting, unused) = self.slots.split_at(self.waits as usize);
        let last = &self.last[..self.posts as usize];
        let mut seen = Seen {
            counts: [0; 16],
            takes: 0,
            returns: 0,
            end: 0,
        };
        let mut top = floor;
        for m in waiting {
            let t = stamp(m.counter, m.sender);
            if !is_fair(m, last) || t <= top {
                return None;
            }
            top = t;
            seen.counts[m.sender as usize] += 1;
            if m.sender == self.own {
                if m.kind == Kind::Take as u8 {
                    seen.takes += 1;
                } else {
                    seen.returns += 1;
                }
                seen.end = m.kind;
            }
        }
        are_blank(unused).then_some(seen)
    }
}

// What of those that wait is settled: how many, and the counts with it.
#[derive(Clone, Copy)]
pub(crate) struct Gone {
    pub count: usize,
    pub takes: u64,
    pub returns: u64,
    // the own take's number, if it is among them
    pub order: Option<u64>,
}

// Those that wait up to the floor leave, after so many takes. In one loop: with a chain for each count, a call that settles 58 took 5397 instructions for 4105, and went beyond its limit.
pub(crate) fn leaving(waiting: &[Message], floor: u64, own: u8, takes: u64) -> Gone
    requires { (length waiting.now ≤ 62) × (takes < 2 ^ 62) }
    ensures { Left own takes (leading stamp floor waiting.now) result }
{
    let mut gone = Gone {
        count: 0,
        takes,
        returns: 0,
        order: None,
    };
    for m in waiting {
        if floor < stamp(m.counter, m.sender) {
            break;
        }
        gone.count += 1;
        if m.kind == Kind::Take as u8 {
            gone.takes += 1;
            if m.sender == own {
                gone.order = gone.order.or(Some(gone.takes));
            }
        } else if m.kind == Kind::Return as u8 {
            gone.returns += 1;
        }
    }
    gone
}

// The first k of those that wait leave: the others move to the front, and zeros stand after them.
pub(crate) fn leave(waiting: &mut [Message], k: usize)
    requires { k ≤ length waiting.old }
    ensures { waiting.new ≡ drop k waiting.old ++ replicate k blank }
{
    // in most calls none leaves, and nothing is moved
    if k == 0 {
        return;
    }
    let left = waiting.len() - k;
    waiting.copy_within(k.., 0);
    waiting[left..].fill(frame::BLANK);
}

// m is put among those that wait, in the order of stamps; the last of the slots is free for it.
pub(crate) fn put(slots: &mut [Message], m: Message)
    requires { (0 < length slots.old) × Rising stamp (take (length slots.old - 1) slots.old) }
    ensures { slots.new ≡ put stamp m (take (length slots.old - 1) slots.old) }
{
    let n = slots.len() - 1;
    let t = stamp(m.counter, m.sender);
    let i = slots[..n].partition_point(|w| stamp(w.counter, w.sender) <= t);
    slots.copy_within(i..n, i + 1);
    slots[i] = m;
}

// The stamp of the own take among those that wait.
pub(crate) fn own_stamp(waiting: &[Message], own: u8) -> Option<u64>
    ensures { result ≡ option_map stamp (find (own_take own) waiting.now) }
{
    waiting
        .iter()
        .find(|m| m.sender == own && m.kind == Kind::Take as u8)
        .map(|m| stamp(m.counter, m.sender))
}
