// What commands do to the records and the messages sent.
// That posts are below 16 is required and no type: a `Command` may hold any number, and one for posts would be made anew at each call.
ghost use Rattle.std.specs.Prelude.{◌≡◌, ◌+◌, ◌*◌, ◌<◌, IfSome, unwrap_or};
ghost use Rattle.post.specs.declared.{Post.{Post}, Answer.{Answer}};
ghost use Rattle.bench.specs.Night.{lent, opened, begun, post_of, handed_back, next_of, answered, ran};
ghost use Rattle.bench.specs.Inside.{Safe, giving, heard};

use crate::Night;
use crate::lines::Command;
use calls::Start;
use frame::Refusal;
use post::{Answer, Post};
use std::array;

#[tactic(auto, unfolding(crate::specs::Night::opened))]
fn opened(n: u8, k: u8, p: u8) -> Post
    ensures { result ≡ opened n k p }
{
    Post::start(Start {
        posts: n,
        own: p,
        feeder: 0,
        places: k,
    })
    .post
}

// The place of a pair's read position.
fn place(p: u8, q: u8) -> usize
    requires { (p < 16) × (q < 16) }
    ensures { (result ≡ 16 * p + q) × (result < 256) }
{
    16 * p as usize + q as usize
}

impl Night {
    pub(crate) fn begin(n: u8, k: u8) -> Self
        ensures { result ≡ begun n k }
    {
        Self {
            posts: array::from_fn(|p| opened(n, k, p as u8)),
            sent: [frame::BLANK; 256],
            count: 0,
            read: [0; 256],
        }
    }

    // The place of the next message of p that q has not accepted.
    fn next(&self, p: u8, q: u8) -> Option<usize>
        requires { (p < 16) × (q < 16) }
        ensures place { unwrap_or result 256 ≡ next_of self.now p q }
        ensures within { IfSome result (λ i. i < 256) }
    {
        let read = self.read[place(p, q)] as usize;
        self.sent
            .iter()
            .take(self.count as usize)
            .skip(read)
            .position(|m| m.sender == p)
            .map(|i| read + i)
    }

    // Post p's record is the one handed back, and what was written is sent, where there is a place.
    #[tactic(auto, unfolding(crate::specs::Night::handed_back))]
    fn hand_back(&mut self, p: u8, answer: Answer, buf: &[u8]) -> Result<bool, Refusal>
        requires { p < 16 }
        ensures { giving self.new result ≡ answered (handed_back self.old p (heard answer buf.now)) (heard answer buf.now) }
    {
        self.posts[p as usize] = answer.post;
        let marks = answer.outcome?;
        if marks.wrote && self.count < 256 {
            self.sent[self.count as usize] = frame::split(buf).message;
            self.count += 1;
        }
        Ok(marks.granted)
    }

    // A call on post p's record: zero bytes are lent to it, as many as a frame has.
    fn call<F: FnOnce(Post, &mut [u8]) -> Answer>(&mut self, p: u8, f: F) -> Result<bool, Refusal>
        requires within { p < 16 }
        requires any { F.IsAlwaysCallable f }
        ensures { (post : Post) × (buf after : _) × (a : Answer) × (post ≡ post_of self.old p) × (buf.now ≡ lent) × F.post f post buf a after
            × (giving self.new result ≡ answered (handed_back self.old p (heard a after.now)) (heard a after.now)) }
    {
        let mut buf = [0u8; frame::SIZE];
        let answer = f(self.posts[p as usize], &mut buf);
        self.hand_back(p, answer, &buf)
    }

    // What the command gives back: its refusal, or whether it brought the grant.
    pub(crate) fn run(&mut self, c: Option<Command>) -> Result<bool, Refusal>
        requires { Safe c }
        ensures { giving self.new result ≡ ran self.old c }
    {
        let Some(c) = c else {
            return Err(Refusal::Command);
        };
        match c {
            Command::Take(p) => self.call(p, |post, buf| post.take(buf)),
            Command::Return(p) => self.call(p, |post, buf| post.give_back(buf)),
            Command::Deliver(p, q) => {
                let Some(i) = self.next(p, q) else {
                    return Err(Refusal::Nothing);
                };
                let mut bytes = [0u8; frame::SIZE];
                // in a bench of any bytes it may be no message: what is offered then is zeros
                let _ = frame::write(&mut bytes, 0, self.sent[i]);
                let outcome = self.call(q, |post, buf| post.receive(&bytes, buf));
                if outcome.is_ok() {
                    self.read[place(p, q)] = (i + 1) as u16;
                }
                outcome
            }
        }
    }
}
