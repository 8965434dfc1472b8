// Why a call was refused, and the number that a host is answered with.
ghost use Rattle.std.specs.Prelude.{◌≡◌};
ghost use Rattle.records.specs.Refusal.{number_of, answer_number};

use std::error::Error;
use std::fmt;

/// Why a call was refused. The numbers are those of the interface; a call that is done answers 0.
#[derive(Clone, Copy, Debug, PartialEq, Eq)]
pub enum Refusal {
    /// The state that was lent is not sound.
    Unsound = 1,
    /// A call, an element name or an argument that is not known.
    Unknown = 2,
    /// There is nothing for the call to work on.
    NothingToDo = 3,
    /// The lent nodes are used up.
    NodesFull = 4,
    /// The stack of open elements is full.
    StackFull = 5,
    /// The formatting list or the template modes are full.
    PlacesFull = 6,
    /// The lent text pieces are used up.
    PiecesFull = 7,
    /// The lent attribute pairs are used up.
    PairsFull = 8,
    /// The record is cut short or badly written.
    BadRecord = 9,
}

impl Refusal {
    /// The answer number, from 1 to 9.
    pub fn number(self) -> usize
        ensures { result ≡ number_of self }
    {
        self as usize
    }
}

impl From<Refusal> for usize {
    ghost from_gives = { λ e r. r ≡ number_of e };

    fn from(e: Refusal) -> usize {
        e.number()
    }
}

impl fmt::Display for Refusal {
    fn fmt<W: fmt::Write>(&self, f: &mut fmt::Formatter<W>) -> fmt::Result {
        write!(f, "{}", self.number())
    }
}

impl Error for Refusal {}

/// The number that a host is answered with: 0 where the call was done.
pub fn answer(r: Result<(), Refusal>) -> usize
    ensures { result ≡ answer_number r }
{
    match r {
        Ok(()) => 0,
        Err(e) => e.number(),
    }
}
