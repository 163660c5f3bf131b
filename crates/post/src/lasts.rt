// The posts' last counters, and how many messages of each wait.
ghost use Rattle.std.specs.Prelude.{◌≡◌, not, ◌&&◌, ◌||◌, ◌≤◌, leb, ltb, eqb, sum, length};
ghost use Rattle.std.specs.List.{list_all, enumerate_from};
ghost use Rattle.laws.specs.Below.{bits_to};
ghost use Rattle.frame.specs.Message.{stamp_of};
ghost use Rattle.post.specs.Record.{last_of, floor};

use crate::{Post, stamp};

// Of all posts.
pub(crate) fn sum(last: &[u32]) -> u64
    requires { length last.now ≤ 16 }
    ensures { result ≡ sum last.now }
{
    last.iter().map(|c| u64::from(*c)).sum()
}

// At most 4 wait from any other sender.
pub(crate) fn few(counts: &[u8], own: u8) -> bool
    ensures { result ≡ list_all (λ x. eqb x.0 own || leb x.1 4) (enumerate_from 0 counts.now) }
{
    counts
        .iter()
        .enumerate()
        .all(|(q, n)| q == usize::from(own) || *n <= Post::WAITING)
}

impl Post {
    // Those at numbers N and above are 0, and none is above the clock.
    pub(crate) fn lasts_fit(&self) -> bool
        ensures { result ≡ list_all (λ x. (ltb x.0 self.now.posts || eqb x.1 0) && leb x.1 self.now.clock) (enumerate_from 0 self.now.last) }
    {
        let posts = usize::from(self.posts);
        self.last
            .iter()
            .enumerate()
            .all(|(q, c)| (q < posts || *c == 0) && *c <= self.clock)
    }

    // The floor: the least stamp over the other posts, above every stamp where there is none, as the definition `floor` has it.
    // As a chain (`filter`, `map`, `fold`) it took 237 instructions more in an acknowledgment with 16 posts.
    pub(crate) fn floor(&self) -> u64
        requires { self.now.posts ≤ 16 }
        ensures { result ≡ floor self.now }
    {
        let mut least = 1 << 40;
        for q in 0..self.posts {
            if q != self.own {
                least = stamp(self.last[q as usize], q).min(least);
            }
        }
        least
    }

    // The other posts whose last stamp is below t, bit q for post q. By `for`, as `floor` is.
    pub(crate) fn late(&self, t: u64) -> u16
        requires { self.now.posts ≤ 16 }
        ensures { result ≡ bits_to self.now.posts (λ q. not (eqb q self.now.own) && ltb (stamp_of (last_of self.now q) q) t) }
    {
        let mut set = 0;
        for q in 0..self.posts {
            if q != self.own && stamp(self.last[q as usize], q) < t {
                set |= 1u16 << q;
            }
        }
        set
    }
}
