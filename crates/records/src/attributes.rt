// The attribute pairs of a call.
ghost use Rattle.std.specs.Prelude.{◌≡◌};

use crate::Record;

/// The attribute pairs of a call: `count` pairs of the record from byte `from` of the input on.
#[derive(Clone, Copy)]
pub struct Attributes<'a> {
    pub input: &'a [u8],
    pub from: usize,
    pub count: u16,
}

impl Record {
    /// The attribute pairs that the record has in the input that it was read from.
    pub fn attributes(self, input: &[u8]) -> Attributes<'_>
        ensures input { result.input.now ≡ input.now }
        ensures from { result.from ≡ self.from }
        ensures count { result.count ≡ self.count }
    {
        Attributes {
            input,
            from: self.from,
            count: self.count,
        }
    }
}
