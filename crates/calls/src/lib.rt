// What a post is started with and what it is asked, for the record and for those who ask.
#![tactic(auto)]

ghost use Rattle.std.specs.Prelude.{◌≡◌};
ghost use Rattle.frame.specs.Kind.{kind_number};
ghost use Rattle.frame.specs.Refusal.{number};
ghost use Rattle.calls.specs.Own.{row_of};

use frame::{Kind, Refusal};

#[derive(Clone, Copy)]
pub struct Start {
    // how many posts the feeder has, and which one this is
    pub posts: u8,
    pub own: u8,
    pub feeder: u8,
    // how many of them may draw at a time
    pub places: u8,
}

// The own calls, by which a post sends a message.
#[derive(Clone, Copy, Debug, PartialEq, Eq)]
pub enum Own {
    // a truck is plugged in
    Taking,
    // the truck is full
    Returning,
}

// What there is to say of an own call.
#[derive(Clone, Copy, Debug, PartialEq, Eq)]
pub struct OwnRow {
    // of the message
    pub kind: Kind,
    // the phase in which the call is made, a number as in the record, and what it gets in another
    pub from: u8,
    pub other: Refusal,
    // the phase that it leads to
    pub to: u8,
}

impl Own {
    pub fn row(self) -> OwnRow
        ensures kind { kind_number result.kind ≡ (row_of self).kind }
        ensures from { result.from ≡ (row_of self).from }
        ensures other { number result.other ≡ (row_of self).other }
        ensures to { result.to ≡ (row_of self).to }
    {
        match self {
            Own::Taking => OwnRow {
                kind: Kind::Take,
                from: 0,
                other: Refusal::Take,
                to: 1,
            },
            Own::Returning => OwnRow {
                kind: Kind::Return,
                from: 3,
                other: Refusal::Return,
                to: 0,
            },
        }
    }
}
