// Lines: the one being read, and what it says.
ghost use Rattle.std.specs.Prelude.{◌≡◌, position};
ghost use Rattle.bench.specs.Lines.{empty, pushed, kept, inside, in_range_for, command_of, header_of};
ghost use Rattle.bench.specs.Inside.{digit_of, number_of, is_space, pair_of_numbers, parsed_command, parsed_header, header_fits};

use crate::Line;

// What a line asks for.
#[derive(Clone, Copy)]
pub enum Command {
    Take(u8),
    Return(u8),
    // offer the second post the next message of the first
    Deliver(u8, u8),
}

// What a first line says.
#[derive(Clone, Copy)]
pub struct Header {
    pub posts: u8,
    pub places: u8,
}

impl Line {
    #[tactic(auto, unfolding(crate::specs::Lines::empty))]
    pub(crate) fn empty() -> Self
        ensures { result ≡ empty }
    {
        Self {
            bytes: [0; 8],
            len: 0,
        }
    }

    #[tactic(auto, unfolding(crate::specs::Lines::pushed))]
    pub(crate) fn push(&mut self, b: u8)
        ensures { self.new ≡ pushed self.old b }
    {
        if self.len < 8 {
            self.bytes[usize::from(self.len)] = b;
            self.len += 1;
        }
    }

    fn kept(&self) -> &[u8]
        ensures { result.now ≡ kept self.now }
    {
        &self.bytes[..usize::from(self.len.min(8))]
    }
}

impl Header {
    #[tactic(auto, unfolding(crate::specs::Inside::header_fits))]
    fn fits(self) -> bool
        ensures { result ≡ header_fits self }
    {
        (1..=16).contains(&self.posts) && (1..=16).contains(&self.places)
    }
}

#[tactic(auto, unfolding(crate::specs::Lines::inside))]
fn inside(n: u8, p: u8) -> bool
    ensures { result ≡ inside n p }
{
    p < n && p < 16
}

impl Command {
    #[tactic(auto, unfolding(crate::specs::Lines::in_range_for))]
    fn is_in_range(self, n: u8) -> bool
        ensures { result ≡ in_range_for n self }
    {
        match self {
            Self::Take(p) | Self::Return(p) => inside(n, p),
            Self::Deliver(p, q) => inside(n, p) && inside(n, q) && p != q,
        }
    }
}

fn digit(b: u8) -> Option<u8>
    ensures { result ≡ digit_of b }
{
    match b {
        b'0'..=b'9' => Some(b - b'0'),
        _ => None,
    }
}

// A number below 20, as all are that a line can have.
#[tactic(auto, unfolding(crate::specs::Inside::number_of))]
fn number(digits: &[u8]) -> Option<u8>
    ensures { result ≡ number_of digits.now }
{
    match digits {
        [b] => digit(*b),
        [b'1', b] => Some(10 + digit(*b)?),
        _ => None,
    }
}

// By itself: before a `?` a proof would not know what `position` says.
fn first_space(text: &[u8]) -> Option<usize>
    ensures { result ≡ position is_space text.now }
{
    text.iter().position(|b| *b == b' ')
}

// Two numbers and a space between.
#[tactic(auto, unfolding(crate::specs::Inside::pair_of_numbers))]
fn pair(text: &[u8]) -> Option<(u8, u8)>
    ensures { result ≡ pair_of_numbers text.now }
{
    let at = first_space(text)?;
    Some((number(&text[..at])?, number(&text[at + 1..])?))
}

#[tactic(auto, unfolding(crate::specs::Inside::parsed_command))]
fn parse_command(text: &[u8]) -> Option<Command>
    ensures { result ≡ parsed_command text.now }
{
    match text {
        [b'T', b' ', p @ ..] => Some(Command::Take(number(p)?)),
        [b'R', b' ', p @ ..] => Some(Command::Return(number(p)?)),
        [b'D', b' ', both @ ..] => {
            let (p, q) = pair(both)?;
            Some(Command::Deliver(p, q))
        }
        _ => None,
    }
}

#[tactic(auto, unfolding(crate::specs::Inside::parsed_header))]
fn parse_header(text: &[u8]) -> Option<Header>
    ensures { result ≡ parsed_header text.now }
{
    let (posts, places) = pair(text)?;
    Some(Header { posts, places })
}

pub(crate) fn read_command(line: &Line, n: u8) -> Option<Command>
    ensures { result ≡ command_of n (kept line.now) }
{
    parse_command(line.kept()).filter(|c| c.is_in_range(n))
}

pub(crate) fn read_header(line: &Line) -> Option<Header>
    ensures { result ≡ header_of (kept line.now) }
{
    parse_header(line.kept()).filter(|h| h.fits())
}
