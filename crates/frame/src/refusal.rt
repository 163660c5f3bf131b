// The refusals, in document 01's table.
ghost use Rattle.std.specs.Prelude.{◌≡◌};
ghost use Rattle.frame.specs.Refusal.{number};

// Each with its number there; 0 is no refusal.
#[derive(Clone, Copy, Debug, PartialEq, Eq)]
pub enum Refusal {
    // a record that is not sound, or start numbers out of range
    Record = 1,
    // a lent buffer that is shorter than a frame
    Buffer = 2,
    Length = 3,
    Mark = 4,
    Version = 5,
    // a frame of another feeder
    Feeder = 6,
    Kind = 7,
    Sender = 8,
    Counter = 9,
    // a counter not above the sender's last
    Turn = 10,
    // no next counter is left
    Spent = 11,
    // the sender already has as many waiting as may
    Waiting = 12,
    // a take in a phase other than 0
    Take = 13,
    // a return in a phase other than 3
    Return = 14,
    // nothing is on the way
    Nothing = 15,
    // a line that is no command
    Command = 16,
    // one line of commands too many
    End = 17,
}

impl Refusal {
    pub fn number(self) -> u8
        ensures { result ≡ number self }
    {
        self as u8
    }
}
