// What a call works on: the record by value, and what is lent.
use crate::{Context, Core};

/// What a call works on: the record's parts by value, and what is lent for the document, one level deep. The stack's places are lent too:
/// in a `State` they are an array. Calls are functions that take it by `&mut` and give `Result<(), Refusal>`; a refused call leaves all of it
/// as it was.
#[derive(Drop)]
pub struct Builder<'a> {
    /// How many places, nodes, pieces and pairs are in use, and the flags.
    pub core: Core,
    /// The fragment context. No call changes it.
    pub context: Option<Context>,
    /// The places of the stack of open elements, of which the first `core.depth` are in use.
    pub stack: &'a mut [u16],
    /// The list of active formatting elements: the first `core.counts.list` places.
    pub list: &'a mut [u16],
    /// The stack of template insertion modes: the first `core.counts.modes` places.
    pub modes: &'a mut [u16],
    /// Node slots of 32 bytes (docs/LAYOUT.md).
    pub nodes: &'a mut [u8],
    /// Text pieces of 4 bytes.
    pub pieces: &'a mut [u8],
    /// Attribute pairs of 4 bytes.
    pub pairs: &'a mut [u8],
}
