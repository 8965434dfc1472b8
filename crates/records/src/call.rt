// The calls of a record, and what follows each call's number.
ghost use Rattle.std.specs.Prelude.{◌≡◌, nat_lt};
ghost use Rattle.records.specs.Record.{count_of, pairs_of};
ghost use Rattle.records.specs.Call.{call_number, IsCallOf};

use crate::refusal::Refusal;

/// The calls, by their numbers in a record.
#[derive(Clone, Copy, Debug, PartialEq, Eq)]
pub enum Call {
    Element = 1,
    Text = 2,
    Comment = 3,
    CreateFormatting = 4,
    Marker = 5,
    ClearToMarker = 6,
    Reconstruct = 7,
    Adopt = 8,
    MisnestedA = 9,
    EndTag = 10,
    CloseP = 11,
    CloseCell = 12,
    ImpliedEndTags = 13,
    Pop = 14,
    Foster = 15,
    PushMode = 16,
    PopMode = 17,
    HeadSeen = 18,
}

impl TryFrom<u16> for Call {
    type Error = Refusal;

    ghost try_from_gives = { λ n r. IsCallOf n r };

    /// The call of a number; Unknown where it is 0 or above 18.
    fn try_from(n: u16) -> Result<Self, Refusal> {
        match n {
            1 => Ok(Call::Element),
            2 => Ok(Call::Text),
            3 => Ok(Call::Comment),
            4 => Ok(Call::CreateFormatting),
            5 => Ok(Call::Marker),
            6 => Ok(Call::ClearToMarker),
            7 => Ok(Call::Reconstruct),
            8 => Ok(Call::Adopt),
            9 => Ok(Call::MisnestedA),
            10 => Ok(Call::EndTag),
            11 => Ok(Call::CloseP),
            12 => Ok(Call::CloseCell),
            13 => Ok(Call::ImpliedEndTags),
            14 => Ok(Call::Pop),
            15 => Ok(Call::Foster),
            16 => Ok(Call::PushMode),
            17 => Ok(Call::PopMode),
            18 => Ok(Call::HeadSeen),
            _ => Err(Refusal::Unknown),
        }
    }
}

impl From<Call> for u16 {
    ghost from_gives = { λ c r. r ≡ call_number c };

    fn from(c: Call) -> u16 {
        c as u16
    }
}

// How many numbers each call takes, by its number. A table: a match becomes a jump for each record, which is slower.
const COUNTS: [usize; 19] = [0, 3, 1, 2, 1, 0, 0, 0, 1, 0, 1, 0, 0, 2, 0, 1, 1, 0, 1];

// 1 where attribute pairs follow them, with their count before them: a table too.
const PAIRS: [usize; 19] = [0, 1, 0, 0, 1, 0, 0, 0, 0, 0, 0, 0, 0, 0, 0, 0, 0, 0, 0];

impl Call {
    /// How many numbers the call takes, 3 at most.
    #[tactic(auto, using(crate::proofs::Calls::call_low), unfolding(crate::specs::Record::count_of))]
    pub fn numbers(self) -> usize
        ensures { result ≡ count_of (call_number self) }
    {
        COUNTS[usize::from(u16::from(self))]
    }

    /// Whether attribute pairs follow them, with their count before them.
    #[tactic(auto, using(crate::proofs::Calls::call_low), unfolding(crate::specs::Record::pairs_of))]
    pub fn has_pairs(self) -> bool
        ensures { result ≡ nat_lt 0 (pairs_of (call_number self)) }
    {
        0 < PAIRS[usize::from(u16::from(self))]
    }
}
