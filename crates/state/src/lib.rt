#![tactic(auto)]
// The record: what is small of the state, by value. The lent memory stands beside it.
ghost use Rattle.std.specs.Prelude.{◌≡◌, replicate};
ghost use Rattle.state.specs.Fields.{set_depth, set_nodes, set_pieces, set_pairs, set_list, set_modes, set_foster, set_head, core_of, state_of, empty_state};

pub mod builder;
pub mod lent;

// The stack of open elements: places for node numbers, of which the first `depth` are in use.
#[derive(Clone, Copy)]
pub struct Stack {
    pub handles: [u16; 512],
    pub depth: usize,
}

impl Stack {
    pub const PLACES: usize = 512;

    // Nothing is open.
    pub fn empty() -> Stack
        ensures { (result.handles ≡ replicate 512 0) × (result.depth ≡ 0) }
    {
        Stack {
            handles: [0u16; 512],
            depth: 0,
        }
    }
}

// How many of what is lent are used.
#[derive(Clone, Copy)]
pub struct Counts {
    pub nodes: usize,
    pub pieces: usize,
    pub pairs: usize,
    pub list: usize,
    pub modes: usize,
}

impl Counts {
    // The largest formatting list, and the largest stack of template modes.
    pub const LIST: usize = 256;

    pub const MODES: usize = 64;
}

// Foster parenting, and head element seen: each 0 or 1.
#[derive(Clone, Copy)]
pub struct Flags {
    pub foster: usize,
    pub head: usize,
}

/// The fragment context: the element that a fragment is parsed for, by its namespace, name and mark.
#[derive(Clone, Copy)]
pub struct Context {
    pub space: u16,
    pub name: u16,
    pub mark: u16,
}

#[derive(Clone, Copy)]
pub struct State {
    pub stack: Stack,
    pub counts: Counts,
    pub flags: Flags,
    pub context: Option<Context>,
}

// What goes through a run by value: the places of the stack are lent beside it, and what no call changes stays behind.
#[derive(Clone, Copy)]
pub struct Core {
    pub depth: usize,
    pub counts: Counts,
    pub flags: Flags,
}

impl Core {
    pub fn with_depth(mut self, n: usize) -> Core
        ensures { result ≡ set_depth self n }
    {
        self.depth = n;
        self
    }

    pub fn with_nodes(mut self, n: usize) -> Core
        ensures { result ≡ set_nodes self n }
    {
        self.counts.nodes = n;
        self
    }

    pub fn with_pieces(mut self, n: usize) -> Core
        ensures { result ≡ set_pieces self n }
    {
        self.counts.pieces = n;
        self
    }

    pub fn with_pairs(mut self, n: usize) -> Core
        ensures { result ≡ set_pairs self n }
    {
        self.counts.pairs = n;
        self
    }

    pub fn with_list(mut self, n: usize) -> Core
        ensures { result ≡ set_list self n }
    {
        self.counts.list = n;
        self
    }

    pub fn with_modes(mut self, n: usize) -> Core
        ensures { result ≡ set_modes self n }
    {
        self.counts.modes = n;
        self
    }

    pub fn with_foster(mut self, n: usize) -> Core
        ensures { result ≡ set_foster self n }
    {
        self.flags.foster = n;
        self
    }

    pub fn with_head(mut self, n: usize) -> Core
        ensures { result ≡ set_head self n }
    {
        self.flags.head = n;
        self
    }
}

impl State {
    // Nothing is open and nothing used: a record to begin from.
    pub fn empty() -> State
        ensures { result ≡ empty_state }
    {
        State {
            stack: Stack::empty(),
            counts: Counts {
                nodes: 0,
                pieces: 0,
                pairs: 0,
                list: 0,
                modes: 0,
            },
            flags: Flags { foster: 0, head: 0 },
            context: None,
        }
    }

    #[tactic(auto, unfolding(crate::specs::Fields::state_of))]
    /// The record put together of the stack's places and what goes through a run beside them.
    pub fn of(handles: [u16; 512], core: Core, context: Option<Context>) -> State
        ensures { result ≡ state_of handles core context }
    {
        State {
            stack: Stack {
                handles,
                depth: core.depth,
            },
            counts: core.counts,
            flags: core.flags,
            context,
        }
    }

    pub fn core(self) -> Core
        ensures { result ≡ core_of self }
    {
        let counts = self.counts;
        let flags = self.flags;
        Core {
            depth: self.stack.depth,
            counts: counts,
            flags: flags,
        }
    }
}
