#![tactic(auto)]

// Why a call says no: the rules' numbers for no, each with a name (N0). The calls for C have two more of their own, 251 and 252.
// `Fault` is a refusal with the place that it is told with, which only those of a body have (N21 to N28).
ghost use Rattle.std.specs.Prelude.{◌≡◌, Some};
ghost use Rattle.refusal.specs.Refusal.{number_of, fault_at, refusal_text, fault_text};

use std::error::Error;
use std::fmt;

#[derive(Clone, Copy, Debug, PartialEq, Eq)]
pub enum Refusal {
    // There are fewer than 7 bytes.
    TooFewBytes = 1,
    // There are more than 21 bytes.
    TooManyBytes = 2,
    // The count isn't the number of bytes.
    WrongCount = 3,
    // All bytes together don't add up to 0.
    WrongChecksum = 4,
    // The packet is for another MID.
    OtherMid = 5,
    // The second byte isn't 7Fh.
    WrongMark = 6,
    // The last byte but one isn't 00h.
    WrongEnd = 7,
    // No packet has this ID.
    UnknownId = 8,
    // A packet with this ID has more bytes, or fewer.
    WrongSize = 9,
    // No packet has this total and position.
    WrongPlace = 10,
    // A packet before the last isn't full.
    ShortPart = 11,
    // A program runs.
    Busy = 12,
    // The packet doesn't fit those collected.
    OtherPacket = 13,
    // The record isn't sound.
    Unsound = 16,
    // No sign has this pace and these scans.
    WrongStart = 17,
    // No sign may have this MID.
    ForbiddenMid = 19,
    // The body doesn't begin with a caret.
    NoCaret = 21,
    // These letters are those of no command.
    NoCommand = 22,
    // No right number stands here.
    WrongNumber = 23,
    // This byte may not stand here.
    WrongByte = 24,
    // None of its letters stands behind a tilde.
    LoneTilde = 25,
    // This command may not stand here by the rule of loops.
    WrongLoop = 26,
    // A command stands behind an `F` or `R`.
    BehindEnd = 27,
    // The body has more than 84 bytes.
    LongBody = 28,
    // A body has 1 to 84 bytes.
    WrongBody = 31,
    // No body is sent, and none was completed, under this ID.
    WrongId = 32,
    // The body has no packet at this position.
    NoPosition = 33,
    // The buffer is too short.
    NoRoom = 34,
    // The bytes are no reply of this MID.
    NoReply = 35,
}

// A refusal of a body, and where in the body it is.
#[derive(Clone, Copy, Debug, PartialEq, Eq)]
pub struct Fault {
    pub refusal: Refusal,
    pub place: usize,
}

impl Refusal {
    // The rules' number for this.
    pub fn number(self) -> u8
        ensures { result ≡ number_of self }
    {
        self as u8
    }

    // This refusal of a body, and where in the body it is.
    pub fn at(self, place: usize) -> Fault
        ensures { result ≡ fault_at self place }
    {
        Fault {
            refusal: self,
            place,
        }
    }
}

impl fmt::Display for Refusal {
    ghost output = { λ e. Some (refusal_text e) };

    fn fmt<W: fmt::Write>(&self, f: &mut fmt::Formatter<W>) -> fmt::Result {
        write!(f, "refused {}", self.number())
    }
}

impl fmt::Display for Fault {
    ghost output = { λ f. Some (fault_text f) };

    fn fmt<W: fmt::Write>(&self, f: &mut fmt::Formatter<W>) -> fmt::Result {
        write!(f, "{} at {}", self.refusal, self.place)
    }
}

impl Error for Refusal {}

impl Error for Fault {}
