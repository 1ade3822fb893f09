// The refusals of 01's table, by name, and a refusal with its place.
#![tactic(auto)]

ghost use Rattle.std.specs.Prelude.{◌≡◌};
ghost use Rattle.refusals.specs.Names.{number_of, placed};

use std::error::Error;
use std::fmt;

/// A row of the table.
#[derive(Clone, Copy, Debug, PartialEq, Eq)]
pub enum Refusal {
    TooLong,
    NoPreamble,
    WrongId,
    FileEnds,
    NoPiece,
    BadLength,
    OutsideLimits,
    BadCode,
    CodeTwice,
    RasterEnds,
    TooMany,
    SecondRepeat,
    LeftOver,
    BadEnding,
    NoPacket,
    NoSuchCode,
    NoRoom,
    BitmapOutsideLimits,
    BadBitmap,
    NoForm,
}

impl Refusal {
    /// The number of the row.
    pub fn number(self) -> u32
        ensures { result ≡ number_of self }
    {
        match self {
            Refusal::TooLong => 1,
            Refusal::NoPreamble => 2,
            Refusal::WrongId => 3,
            Refusal::FileEnds => 4,
            Refusal::NoPiece => 5,
            Refusal::BadLength => 6,
            Refusal::OutsideLimits => 7,
            Refusal::BadCode => 8,
            Refusal::CodeTwice => 9,
            Refusal::RasterEnds => 10,
            Refusal::TooMany => 11,
            Refusal::SecondRepeat => 12,
            Refusal::LeftOver => 13,
            Refusal::BadEnding => 14,
            Refusal::NoPacket => 15,
            Refusal::NoSuchCode => 16,
            Refusal::NoRoom => 17,
            Refusal::BitmapOutsideLimits => 18,
            Refusal::BadBitmap => 19,
            Refusal::NoForm => 20,
        }
    }

    /// The refusal of a call, with the start of the piece at fault, or 0.
    pub fn at(self, place: usize) -> Refused
        ensures { result ≡ placed self place }
    {
        Refused {
            refusal: self,
            place,
        }
    }
}

/// What a call answers that refuses: the row, and the start of the piece at fault, which is 0 where no piece is.
#[derive(Clone, Copy, Debug, PartialEq, Eq)]
pub struct Refused {
    pub refusal: Refusal,
    pub place: usize,
}

impl fmt::Display for Refused {
    fn fmt<W: fmt::Write>(&self, f: &mut fmt::Formatter<W>) -> fmt::Result {
        write!(f, "refuse {} {}", self.refusal.number(), self.place)
    }
}

impl Error for Refused {}
