// What a host lends for a document: to be changed by a call, or to be read by a question.
ghost use Rattle.std.specs.Prelude.{◌≡◌};
ghost use Rattle.state.specs.Lent.{Shows};

/// What a host lends for a document. The memory may hold anything and be of any size (docs/LAYOUT.md); what does not count is not touched.
#[derive(Drop)]
pub struct Lent<'a> {
    /// Node slots of 32 bytes, from number 1 on.
    pub nodes: &'a mut [u8],
    /// The list of active formatting elements.
    pub list: &'a mut [u16],
    /// The stack of template insertion modes.
    pub modes: &'a mut [u16],
    /// Text pieces of 4 bytes, from number 1 on.
    pub pieces: &'a mut [u8],
    /// Attribute pairs of 4 bytes, from number 0 on.
    pub pairs: &'a mut [u8],
}

/// The same to be read alone.
#[derive(Clone, Copy)]
pub struct Seen<'a> {
    pub nodes: &'a [u8],
    pub list: &'a [u16],
    pub modes: &'a [u16],
    pub pieces: &'a [u8],
    pub pairs: &'a [u8],
}

impl Lent<'_> {
    /// What is lent, to be read.
    pub fn seen(&self) -> Seen<'_>
        ensures { Shows result self.now }
    {
        Seen {
            nodes: self.nodes,
            list: self.list,
            modes: self.modes,
            pieces: self.pieces,
            pairs: self.pairs,
        }
    }
}
