// The lines that the bench writes, put into a lent buffer from a place on.
// Not by `write!`: std promises a text where the result is Ok, and nowhere that it is.
// That numbers are below 1000, as the definition `decimal` has it, is required and no type, which would be made anew at each call.
ghost use Rattle.std.specs.Prelude.{[], ◌∷◌, ◌<◌};
ghost use Rattle.frame.specs.Refusal.{number_in};
ghost use Rattle.bench.specs.Inside.{Writes, granted_in};
ghost use Rattle.bench.specs.Text.{decimal, text, shown, answer_line, bad_header, last_line};

use crate::lines::Command;
use frame::Refusal;

// A lent buffer, and the place where the next text is put.
#[derive(Drop)]
pub(crate) struct Page<'a> {
    pub out: &'a mut [u8],
    pub at: usize,
}

impl Page<'_> {
    fn byte(&mut self, b: u8)
        ensures { Writes self.old self.new (b ∷ []) }
    {
        self.at = text::byte(self.out, self.at, b);
    }

    fn word(&mut self, w: &[u8])
        ensures { Writes self.old self.new w.now }
    {
        self.at = text::word(self.out, self.at, w);
    }

    fn number(&mut self, n: u64)
        requires { n < 1000 }
        ensures { Writes self.old self.new (decimal n) }
    {
        self.at = text::number(self.out, self.at, n);
    }

    // A letter, a space and a number.
    fn lettered(&mut self, letter: u8, p: u8)
        ensures { Writes self.old self.new (letter ∷ 32 ∷ decimal p) }
    {
        self.byte(letter);
        self.byte(b' ');
        self.number(u64::from(p));
    }

    fn command(&mut self, c: Command)
        ensures { Writes self.old self.new (text c) }
    {
        match c {
            Command::Take(p) => self.lettered(b'T', p),
            Command::Return(p) => self.lettered(b'R', p),
            Command::Deliver(p, q) => {
                self.lettered(b'D', p);
                self.byte(b' ');
                self.number(u64::from(q));
            }
        }
    }

    // What a line asks for; `?` where that is no command.
    fn asked(&mut self, c: Option<Command>)
        ensures { Writes self.old self.new (shown c) }
    {
        match c {
            Some(c) => self.command(c),
            None => self.byte(b'?'),
        }
    }

    // The refusal is the number that is printed.
    fn line(&mut self, n: u16, c: Option<Command>, refusal: u8, granted: bool)
        requires { n < 1000 }
        ensures { Writes self.old self.new (answer_line n c refusal granted) }
    {
        self.number(u64::from(n));
        self.byte(b' ');
        self.asked(c);
        self.byte(b' ');
        self.number(u64::from(refusal));
        self.byte(b' ');
        self.byte(if granted { b'G' } else { b'-' });
        self.byte(b'\n');
    }

    pub(crate) fn answer(&mut self, n: u16, c: Option<Command>, outcome: Result<bool, Refusal>)
        requires { n < 1000 }
        ensures { Writes self.old self.new (answer_line n c (number_in outcome) (granted_in outcome)) }
    {
        match outcome {
            Ok(granted) => self.line(n, c, 0, granted),
            Err(refusal) => self.line(n, c, refusal.number(), false),
        }
    }

    pub(crate) fn bad_header(&mut self)
        ensures { Writes self.old self.new bad_header }
    {
        self.word(b"bad header\n");
    }

    pub(crate) fn last(&mut self, places: u8, held: u8, waiting: u8)
        ensures { Writes self.old self.new (last_line places held waiting) }
    {
        self.word(b"places ");
        self.number(u64::from(places));
        self.word(b" held ");
        self.number(u64::from(held));
        self.word(b" waiting ");
        self.number(u64::from(waiting));
        self.byte(b'\n');
    }
}
