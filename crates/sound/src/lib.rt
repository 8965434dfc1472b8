#![tactic(auto)]
// The state check: yes exactly to a sound state, whatever the lent bytes and the numbers are.
ghost use Rattle.std.specs.Prelude.{◌≡◌, ◌≤◌, ◌<◌, length, take};
ghost use Rattle.lent.specs.Mem.{up};
ghost use Rattle.theory.specs.Says.{Says};
ghost use Rattle.theory.specs.Natural.{Natural};
ghost use Rattle.theory.specs.Depth.{InRange};
ghost use Rattle.sound.specs.Sound.{Kinds, Top, Open, Lone, Entry, Entries, Modes, Known, Allowed, Settings, Sizes, Places, Tree, Sound};

use lent::{Kind, Node, Pair, Piece, wide};
use names::Namespace;
use names::sets::Set;
use state::lent::Seen;
use state::{Context, Core, Counts, Flags, Stack};

// The open elements are elements, and the first is the root.
fn open(mem: &[u8], stack: &[u16], depth: usize) -> bool
    requires { depth ≤ length stack.now }
    ensures { Says (Open mem.now stack.now depth) result }
{
    depth > 0
        && stack[0] == Node::ROOT
        && stack[..depth]
            .iter()
            .all(|&x| lent::get(mem, Node(x), Node::KIND) == Kind::ELEMENT)
}

// No earlier entry is the i-th.
fn lone(list: &[u16], i: usize) -> bool
    requires { i < length list.now }
    ensures { Says (Lone list.now i) result }
{
    !list[..i].contains(&list[i])
}

// What the check reads: the lent bytes, the places, and how many of each are used.
#[derive(Clone, Copy)]
struct View<'a> {
    nodes: &'a [u8],
    pieces: &'a [u8],
    pairs: &'a [u8],
    stack: &'a [u16],
    list: &'a [u16],
    modes: &'a [u16],
    depth: usize,
    counts: Counts,
}

impl View<'_> {
    // The counts of what is lent are within capacity.
    fn sizes(self) -> bool
        ensures { let s = self.entry in Says (Sizes s.nodes.now s.pieces.now s.pairs.now s.counts.nodes s.counts.pieces s.counts.pairs) result }
    {
        let n = self.counts;
        n.nodes <= Node::MOST
            && n.pieces <= Piece::MOST
            && n.pairs <= Pair::MOST
            && (n.nodes + 1) * 32 <= self.nodes.len()
            && n.pairs * 4 <= self.pairs.len()
            && (n.pieces == 0 || (n.pieces + 1) * 4 <= self.pieces.len())
    }

    // The counts of the places are within capacity.
    fn places(self) -> bool
        ensures { let s = self.entry in Says (Places s.stack.now s.list.now s.modes.now s.depth s.counts.list s.counts.modes) result }
    {
        self.depth <= Stack::PLACES
            && self.depth <= self.stack.len()
            && self.counts.list <= Counts::LIST
            && self.counts.list <= self.list.len()
            && self.counts.modes <= Counts::MODES
            && self.counts.modes <= self.modes.len()
    }

    // Each used pair has a known name.
    fn known(self) -> bool
        ensures { let s = self.entry in Says (Known s.pairs.now s.counts.pairs) result }
    {
        for i in 0..self.counts.pairs {
            if !names::is_name(wide::pair_field(self.pairs, i, Pair::NAME)) {
                return false;
            }
        }
        true
    }

    // Each used node is what its kind asks for.
    fn kinds(self) -> bool
        ensures { let s = self.entry in Says (Kinds s.nodes.now s.pairs.now s.counts.nodes s.counts.pairs) result }
    {
        for x in 1..=self.counts.nodes {
            if !nodes::kind(
                self.nodes,
                self.pairs,
                self.counts.nodes,
                self.counts.pairs,
                x,
            ) {
                return false;
            }
        }
        true
    }

    // Node 1 is the document, and node 2 the root.
    fn top(self) -> bool
        ensures { let s = self.entry in Says (Top s.nodes.now s.counts.nodes) result }
    {
        let root = Node::root();
        self.counts.nodes >= usize::from(Node::ROOT)
            && lent::get(self.nodes, Node::document(), Node::KIND) == Kind::DOCUMENT
            && lent::get(self.nodes, root, Node::KIND) == Kind::ELEMENT
            && lent::get(self.nodes, root, Node::SPACE) == Namespace::HTML
            && lent::get(self.nodes, root, Node::NAME) == names::tag::HTML
            && lent::get(self.nodes, root, Node::PARENT) == Node::DOCUMENT
    }

    // Going up ends, and the open elements are in order.
    fn order(self) -> bool
        requires depth_in_bounds { self.depth ≤ length self.stack.now }
        requires depth_bound { self.depth ≤ 512 }
        requires nodes_bound { self.counts.nodes ≤ 4096 }
        requires in_range { InRange (up self.nodes.now) self.counts.nodes }
        ensures { let s = self.entry in Says (Natural (up s.nodes.now) s.counts.nodes (take s.depth s.stack.now)) result }
    {
        ends::ends(self.nodes, self.counts.nodes)
            && order::order(self.nodes, self.stack, self.depth, self.counts.nodes)
    }

    // The nodes, the pairs and the open elements.
    #[tactic(auto, using(crate::proofs::Range::in_range))]
    fn tree(self) -> bool
        requires depth_in_bounds { self.depth ≤ length self.stack.now }
        requires depth_bound { self.depth ≤ 512 }
        requires nodes_bound { self.counts.nodes ≤ 4096 }
        ensures { let s = self.entry in Says (Tree s.nodes.now s.pairs.now s.stack.now s.counts.nodes s.counts.pairs s.depth) result }
    {
        self.known()
            && links::children(self.nodes, self.counts.nodes)
            && self.kinds()
            && self.top()
            && self.order()
            && open(self.nodes, self.stack, self.depth)
    }

    // The i-th entry of the formatting list is a marker, or an HTML element with a formatting name, and no earlier entry.
    fn entry(self, i: usize) -> bool
        requires { i < length self.list.now }
        ensures { let s = self.entry in Says (Entry s.nodes.now s.counts.nodes s.list.now i) result }
    {
        let x = self.list[i];
        if x == Node::MARKER {
            return true;
        }
        x != Node::NONE
            && usize::from(x) <= self.counts.nodes
            && lent::get(self.nodes, Node(x), Node::KIND) == Kind::ELEMENT
            && lent::get(self.nodes, Node(x), Node::SPACE) == Namespace::HTML
            && Set::Formatting.has(Namespace::HTML, lent::get(self.nodes, Node(x), Node::NAME))
            && lone(self.list, i)
    }

    // Each entry of the formatting list is as it should be.
    fn entries(self) -> bool
        requires { self.counts.list ≤ length self.list.now }
        ensures { let s = self.entry in Says (Entries s.nodes.now s.counts.nodes s.list.now s.counts.list) result }
    {
        for i in 0..self.counts.list {
            if !self.entry(i) {
                return false;
            }
        }
        true
    }

    // Each template mode is an insertion mode.
    fn modes(self) -> bool
        requires { self.counts.modes ≤ length self.modes.now }
        ensures { let s = self.entry in Says (Modes s.modes.now s.counts.modes) result }
    {
        self.modes[..self.counts.modes]
            .iter()
            .all(|&m| m >= 1 && m <= 21)
    }
}

// The context is none, or a tag that an element may have.
#[tactic(auto, unfolding(crate::specs::Sound::Allowed))]
fn allowed(context: Option<Context>) -> bool
    ensures { Says (Allowed context) result }
{
    match context {
        None => true,
        Some(Context { space, name, mark }) => {
            nodes::tag(usize::from(space), usize::from(name), usize::from(mark))
        }
    }
}

// The flags are off or on, and the context is allowed.
fn settings(flags: Flags, context: Option<Context>) -> bool
    ensures { Says (Settings flags.foster flags.head context) result }
{
    flags.foster <= 1 && flags.head <= 1 && allowed(context)
}

/// Whether the state is sound, rule by rule as `specs/Sound.antt` has it. `seen` is what is lent, `stack` the places of the stack, `core` says how many
/// of each are used. Any bytes and any numbers may come: the answer is yes exactly to a sound state. The counts are tested first, so that each later
/// rule reads only what is lent.
pub fn sound(stack: &[u16], core: Core, context: Option<Context>, seen: Seen<'_>) -> bool
    ensures { let s = seen.entry in let n = core.counts in Says (Sound s.nodes.now s.pieces.now s.pairs.now stack.now s.list.now s.modes.now n.nodes n.pieces n.pairs core.depth n.list n.modes core.flags.foster core.flags.head context) result }
{
    let view = View {
        nodes: seen.nodes,
        pieces: seen.pieces,
        pairs: seen.pairs,
        stack,
        list: seen.list,
        modes: seen.modes,
        depth: core.depth,
        counts: core.counts,
    };
    view.sizes()
        && view.places()
        && view.tree()
        && texts::texts(
            seen.nodes,
            seen.pieces,
            core.counts.nodes,
            core.counts.pieces,
        )
        && view.entries()
        && view.modes()
        && settings(core.flags, context)
}
