// The bench as a library: bytes of a night in, bytes of its answers out.
#![tactic(auto)]

mod commands;
mod lines;
mod writing;

ghost use Rattle.std.specs.Prelude.{◌≡◌, ◌<◌, length};
ghost use Rattle.bench.specs.Bench.{in_phases, closing, unfed, is_over, headed, answers, stops, turned, stepped, last_piece, feeding, Feeds, finished, finished_bytes, Ends};
ghost use Rattle.bench.specs.Inside.{Writes, Room, Turns};

use frame::{Message, Refusal};
pub use lines::{Command, Header};
use post::Post;
use writing::Page;

// The line being read: its first 8 bytes, and how many of these there are, since there is no heap. No text of a command or header has 8.
// Every value is taken, of a length above 8 too: a narrower type would ask more of callers.
#[derive(Clone, Copy)]
pub struct Line {
    pub bytes: [u8; 8],
    pub len: u8,
}

// A night: the records, the messages sent, and for each pair of posts (p, q), at 16 * p + q, how far q has read of them: arrays of 01's sizes, since there is no heap.
#[derive(Clone, Copy)]
pub struct Night {
    pub posts: [Post; 16],
    pub sent: [Message; 256],
    // how many are sent
    pub count: u16,
    pub read: [u16; 256],
}

#[derive(Clone, Copy)]
pub struct Bench {
    pub night: Night,
    // the header's N and K
    pub posts: u8,
    pub places: u8,
    // how many lines of commands are answered
    pub number: u16,
    // 0 the header is read, 1 commands are; from 2 on it is over. A number, since an enum would ask more of who makes a bench.
    pub mode: u8,
    pub line: Line,
}

// What feeding hands back.
#[derive(Clone, Copy)]
pub struct Fed {
    pub used: usize,
    pub written: usize,
    pub over: bool,
}

impl Night {
    // How many records are in phases lo to hi.
    fn in_phases(&self, lo: u8, hi: u8) -> u8
        ensures { result ≡ in_phases lo hi self.now.posts }
    {
        self.posts
            .iter()
            .filter(|p| lo <= p.phase && p.phase <= hi)
            .count() as u8
    }
}

impl Bench {
    // No byte needs more room than this.
    pub const ROOM: usize = 64;

    // So many lines of commands are answered.
    pub const COMMANDS: u16 = 256;

    #[tactic(auto, unfolding(crate::specs::Bench::unfed))]
    pub fn new() -> Self
        ensures { result ≡ unfed }
    {
        Self {
            night: Night::begin(0, 0),
            posts: 0,
            places: 0,
            number: 0,
            mode: 0,
            line: Line::empty(),
        }
    }

    fn is_over(&self) -> bool
        ensures { result ≡ is_over self.now }
    {
        2 <= self.mode
    }

    #[tactic(auto, unfolding(crate::specs::Bench::closing))]
    fn last_line(&self, page: &mut Page)
        ensures { Writes page.old page.new (closing self.now.places self.now.night) }
    {
        let held = self.night.in_phases(Post::HOLDING, Post::HOLDING);
        let waiting = self.night.in_phases(Post::ASKED, Post::NUMBERED);
        page.last(self.places, held, waiting);
    }

    // `Room` is required of each step, and is no invariant of a page: what is written uses it up.
    // The first line is whole.
    #[tactic(auto, unfolding(crate::specs::Bench::headed))]
    fn head(&mut self, page: &mut Page)
        requires { Room page.old }
        ensures { Turns (headed self.old) self.new page.old page.new }
    {
        let Some(h) = lines::read_header(&self.line) else {
            self.mode = 2;
            page.bad_header();
            return;
        };
        *self = Self {
            night: Night::begin(h.posts, h.places),
            posts: h.posts,
            places: h.places,
            number: 0,
            mode: 1,
            line: Line::empty(),
        };
    }

    // A line of commands is whole.
    fn answer(&mut self, page: &mut Page)
        requires { Room page.old × (self.old.number < 256) }
        ensures { Turns (answers self.old) self.new page.old page.new }
    {
        let c = lines::read_command(&self.line, self.posts);
        let outcome = self.night.run(c);
        self.number += 1;
        self.mode = 1;
        self.line = Line::empty();
        page.answer(self.number, c, outcome);
    }

    // Line 257 has a byte.
    fn stop(&mut self, page: &mut Page)
        requires { Room page.old }
        ensures { Turns (stops self.old) self.new page.old page.new }
    {
        self.mode = 2;
        page.answer(257, None, Err(Refusal::End));
        self.last_line(page);
    }

    #[tactic(auto, unfolding(crate::specs::Bench::turned))]
    fn turn(&mut self, page: &mut Page)
        requires { Room page.old }
        ensures { Turns (turned self.old) self.new page.old page.new }
    {
        if self.mode == 0 {
            self.head(page);
        } else if self.number < Self::COMMANDS {
            self.answer(page);
        } else {
            self.stop(page);
        }
    }

    #[tactic(auto, unfolding(crate::specs::Bench::stepped, crate::specs::Bench::plain))]
    fn step(&mut self, b: u8, page: &mut Page)
        requires { Room page.old }
        ensures { Turns (stepped self.old b) self.new page.old page.new }
    {
        if b != b'\n' && (self.mode == 0 || self.number < Self::COMMANDS) {
            self.line.push(b);
        } else {
            self.turn(page);
        }
    }

    // Uses bytes as long as it is not over and there is room for what any byte can write.
    pub fn feed(&mut self, input: &[u8], out: &mut [u8]) -> Fed
        ensures { Feeds (feeding self.old input.now 0 0 out.old) self.new result out.new }
    {
        let mut page = Page { out, at: 0 };
        for (used, b) in input.iter().enumerate() {
            if self.is_over() || page.out.len() - page.at < Self::ROOM {
                return Fed {
                    used,
                    written: page.at,
                    over: self.is_over(),
                };
            }
            self.step(*b, &mut page);
        }
        Fed {
            used: input.len(),
            written: page.at,
            over: self.is_over(),
        }
    }

    // The last line of the input may lack its LF.
    #[tactic(auto, unfolding(crate::specs::Bench::last_piece))]
    fn last_piece(&mut self, page: &mut Page)
        requires { Room page.old }
        ensures { Turns (last_piece self.old) self.new page.old page.new }
    {
        if self.mode == 0 || self.line.len != 0 {
            self.turn(page);
        }
    }

    // The input has ended. It answers how many bytes it wrote, where there was enough room.
    pub fn finish(mut self, out: &mut [u8]) -> Option<usize>
        ensures { Ends (finished self out.old) (finished_bytes self out.old) result out.new }
    {
        if out.len() < Self::ROOM {
            return None;
        }
        if self.is_over() {
            return Some(0);
        }
        let mut page = Page { out, at: 0 };
        self.last_piece(&mut page);
        if self.mode != 1 {
            return Some(page.at);
        }
        self.last_line(&mut page);
        Some(page.at)
    }
}
