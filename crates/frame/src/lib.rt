// Frames: what a message is, and how it is read and written.
#![tactic(auto)]

ghost use Rattle.std.specs.Prelude.{◌≡◌, ◌≤◌, ◌++◌, length, drop};
ghost use Rattle.laws.specs.Ladder.{refusal};
ghost use Rattle.frame.specs.Message.{msg};
ghost use Rattle.frame.specs.Kind.{kind_number, IsKind};
ghost use Rattle.frame.specs.Refusal.{number_in};
ghost use Rattle.frame.specs.Frame.{frame, size, fields_of, form_rows, message_rows, reading_told, read_frame, Written};

mod refusal;

pub use refusal::Refusal;

// The kinds of a message, each with the number that stands for it in a frame.
#[derive(Clone, Copy, Debug, PartialEq, Eq)]
pub enum Kind {
    Take = 1,
    Return = 2,
    Ack = 3,
}

impl TryFrom<u8> for Kind {
    type Error = Refusal;

    ghost try_from_gives = { IsKind };

    fn try_from(kind: u8) -> Result<Self, Refusal> {
        match kind {
            1 => Ok(Kind::Take),
            2 => Ok(Kind::Return),
            3 => Ok(Kind::Ack),
            _ => Err(Refusal::Kind),
        }
    }
}

// A message: its kind, and its stamp of counter and sender. The kind is a byte, since `write`, `Post::sound` and `Post::receive` answer for any.
#[derive(Clone, Copy, Debug, PartialEq, Eq)]
pub struct Message {
    pub kind: u8,
    pub sender: u8,
    pub counter: u32,
}

impl Message {
    pub fn new(kind: Kind, sender: u8, counter: u32) -> Self
        ensures { result ≡ msg (kind_number kind) sender counter }
    {
        Self {
            kind: kind as u8,
            sender,
            counter,
        }
    }
}

// No message: an unused slot of 01's record is zero.
pub const BLANK: Message = Message {
    kind: 0,
    sender: 0,
    counter: 0,
};

// What stands in the fields of a frame, good or bad.
#[derive(Clone, Copy)]
pub struct Fields {
    pub mark: u32,
    pub version: u16,
    pub feeder: u8,
    pub message: Message,
}

// What a good frame says.
#[derive(Clone, Copy)]
pub struct Reading {
    pub feeder: u8,
    pub message: Message,
}

// The bytes of mark, version, feeder, kind, sender and counter.
pub const SIZE: usize = 3 + 2 + 1 + 1 + 1 + 4;

const MARK: u32 = 0x46504d;

const VERSION: u16 = 1;

// The refusals that reading and writing share, in the order of the table.
#[tactic(auto, unfolding(crate::specs::Frame::message_rows))]
fn check_message(m: Message) -> Result<(), Refusal>
    ensures { number_in result ≡ refusal (message_rows m) }
{
    Kind::try_from(m.kind)?;
    if 15 < m.sender {
        return Err(Refusal::Sender);
    }
    if m.counter == 0 {
        return Err(Refusal::Counter);
    }
    Ok(())
}

// The refusals of bytes that are no frame, whatever message they hold.
#[tactic(auto, unfolding(crate::specs::Frame::form_rows))]
pub fn check_form(len: usize, f: Fields) -> Result<(), Refusal>
    ensures { number_in result ≡ refusal (form_rows len f) }
{
    if len != SIZE {
        return Err(Refusal::Length);
    }
    if f.mark != MARK {
        return Err(Refusal::Mark);
    }
    if f.version != VERSION {
        return Err(Refusal::Version);
    }
    Ok(())
}

// What stands in the fields of a frame's bytes; zeros where there are not as many: it cannot fail, and `check_form` says 3.
pub fn split(s: &[u8]) -> Fields
    ensures { result ≡ fields_of s.now }
{
    if s.len() == SIZE {
        let mark = fields::load(s, 0, 3) as u32;
        let version = fields::load(s, 3, 2) as u16;
        let feeder = fields::load(s, 5, 1) as u8;
        let kind = fields::load(s, 6, 1) as u8;
        let sender = fields::load(s, 7, 1) as u8;
        let counter = fields::load(s, 8, 4) as u32;
        return Fields {
            mark,
            version,
            feeder,
            message: Message {
                kind,
                sender,
                counter,
            },
        };
    }
    Fields {
        mark: 0,
        version: 0,
        feeder: 0,
        message: BLANK,
    }
}

pub fn read(s: &[u8]) -> Result<Reading, Refusal>
    ensures { reading_told result ≡ read_frame s.now }
{
    let f = split(s);
    check_form(s.len(), f)?;
    check_message(f.message)?;
    Ok(Reading {
        feeder: f.feeder,
        message: f.message,
    })
}

fn store(buf: &mut [u8], feeder: u8, m: Message)
    requires { size ≤ length buf.old }
    ensures { buf.new ≡ frame feeder m ++ drop size buf.old }
{
    fields::store(buf, 0, 3, u64::from(MARK));
    fields::store(buf, 3, 2, u64::from(VERSION));
    fields::store(buf, 5, 1, u64::from(feeder));
    fields::store(buf, 6, 1, u64::from(m.kind));
    fields::store(buf, 7, 1, u64::from(m.sender));
    fields::store(buf, 8, 4, u64::from(m.counter));
}

// Puts a frame into the first bytes of `buf`, or refuses and leaves all of it.
pub fn write(buf: &mut [u8], feeder: u8, m: Message) -> Result<(), Refusal>
    ensures { Written buf.old buf.new feeder m (number_in result) }
{
    if buf.len() < SIZE {
        return Err(Refusal::Buffer);
    }
    check_message(m)?;
    store(buf, feeder, m);
    Ok(())
}
