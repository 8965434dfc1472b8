#![tactic(auto)]
// Calls 1 (element), 2 (text) and 3 (comment): 13.2.6.1.
ghost use Rattle.std.specs.Prelude.{◌≡◌, ℕ, List, Option, true, not, ◌&&◌, ltb, ◌<◌, ◌≤◌, ◌+◌, length, IfOk, IfErr, OnOk};
ghost use Rattle.places.specs.Places.{Whole};
ghost use Rattle.records.specs.Refusal.{answer_number, value_or};
ghost use Rattle.records.specs.declared.refusal.Refusal.TheVariants.{Unknown};
ghost use Rattle.state.specs.Builder.{SameLoans, full_of};
ghost use Rattle.state.specs.Full.{full, result_of};
ghost use Rattle.state.specs.declared.Context.{Context};
ghost use Rattle.state.specs.Open.{Open};
ghost use Rattle.standard.specs.Pairs.{pairs_in};
ghost use Rattle.standard.specs.Place.{attached, text_before};
ghost use Rattle.standard.specs.Place as place_def;
ghost use Rattle.makers.specs.Make as make_def;
ghost use Rattle.standard.specs.Insertion.{is_markable, bad_tag, element_in, pushed_if, usual_place, new_text, joined_text, text_at, element_room, comment_at, comment_place};
ghost use Rattle.standard.specs.Insertion as def;

pub mod pairs;
pub mod room;

use lent::Node;
use location::place;
use makers::make::Tag;
use names::{Namespace, tag};
use records::attributes::Attributes;
use records::refusal::Refusal;
use standard::Place;
use state::builder::Builder;
use state::{Core, Stack};

// Text as a new node at a place.
#[tactic(auto, unfolding(standard::specs::Insertion::new_text, state::specs::Full::with_nodes, state::specs::Fields::set_nodes, state::specs::Fields::set_counts, state::specs::Full::with_pieces, state::specs::Fields::set_pieces))]
fn new_text(b: &mut Builder<'_>, p: Place, number: u16) -> Result<(), Refusal>
    ensures loans { SameLoans b.old b.new }
    ensures outcome { result_of (answer_number result) (full_of b.new) ≡ new_text (full_of b.old) p number }
{
    let n = room::next_node(b)?;
    let i = room::next_piece(b)?;
    makers::make::make_text(b.nodes, b.pieces, n, i, number);
    place::attach(b.nodes, p, n);
    b.core = b
        .core
        .with_nodes(usize::from(n.0))
        .with_pieces(usize::from(i));
    Ok(())
}

// The text node directly before the place, 0 if there is none.
fn text_before(b: &Builder<'_>, p: Place) -> u16
    ensures { result ≡ place_def.text_before (full_of b.now).nodes.mem p }
{
    place::text_before(b.nodes, p)
}

// The place that a call without a target of its own takes.
#[tactic(auto, using(location::proofs::Laws::usual_is))]
fn usual_place_on(nodes: &[u8], h: &[u16], core: Core) -> Place
    requires some { 0 < core.depth }
    requires whole { core.depth ≤ length h.now }
    ensures { (l m p q : List ℕ) (x : Option Context) → result ≡ usual_place (full h.now core x nodes.now l m p q) }
{
    let i = core.depth - 1;
    place::appropriate_place_on(nodes, h, core.depth, core.flags.foster, Node(h[i]))
}

// Text joined to text node n, of what is lent apart.
#[tactic(auto, unfolding(standard::specs::Insertion::joined_text, state::specs::Full::with_pieces, state::specs::Fields::set_pieces, state::specs::Full::with_nodes, state::specs::Fields::set_counts))]
fn join_text_on(
    core: Core,
    nodes: &mut [u8],
    pieces: &mut [u8],
    n: Node,
    number: u16,
) -> Result<Core, Refusal>
    ensures { (s l m q : List ℕ) (x : Option Context) → result_of (answer_number result) (full s (value_or result core) x nodes.new l m pieces.new q) ≡ joined_text (full s core x nodes.old l m pieces.old q) n.0 number }
{
    let i = room::next_piece_on(pieces, core.counts.pieces)?;
    makers::make::add_piece(nodes, pieces, n, i, number);
    Ok(core.with_pieces(usize::from(i)))
}

// Text as a new node at a place, of what is lent apart.
#[tactic(auto, unfolding(standard::specs::Insertion::new_text, state::specs::Full::with_nodes, state::specs::Fields::set_nodes, state::specs::Fields::set_counts, state::specs::Full::with_pieces, state::specs::Fields::set_pieces))]
fn new_text_on(
    core: Core,
    nodes: &mut [u8],
    pieces: &mut [u8],
    p: Place,
    number: u16,
) -> Result<Core, Refusal>
    ensures { (s l m q : List ℕ) (x : Option Context) → result_of (answer_number result) (full s (value_or result core) x nodes.new l m pieces.new q) ≡ new_text (full s core x nodes.old l m pieces.old q) p number }
{
    let n = room::next_node_on(nodes, core.counts.nodes)?;
    let i = room::next_piece_on(pieces, core.counts.pieces)?;
    makers::make::make_text(nodes, pieces, n, i, number);
    place::attach(nodes, p, n);
    Ok(
        core.with_nodes(usize::from(n.0))
            .with_pieces(usize::from(i)),
    )
}

// Text at a place: it joins a text node directly before it, or is a new node.
#[tactic(auto, unfolding(standard::specs::Insertion::text_at))]
fn text_at_on(
    core: Core,
    nodes: &mut [u8],
    pieces: &mut [u8],
    p: Place,
    number: u16,
) -> Result<Core, Refusal>
    ensures { (s l m q : List ℕ) (x : Option Context) → result_of (answer_number result) (full s (value_or result core) x nodes.new l m pieces.new q) ≡ text_at (full s core x nodes.old l m pieces.old q) p (text_before nodes.old p) number }
{
    let before = place::text_before(nodes, p);
    if before == Node::NONE {
        return new_text_on(core, nodes, pieces, p, number);
    }
    join_text_on(core, nodes, pieces, Node(before), number)
}

/// Call 2, text, for a caller that has the stack to read alone: 13.2.6.1, "insert a character", for a text number. The stack is the first
/// `core.depth` places of `h`. Text directly before the place gets a further piece; else a text node is made. Gives the core after the call.
/// `NodesFull` where a node is to be made and none is free, `PiecesFull` where no piece is; then `nodes` and `pieces` are as they were.
// `text` is no line over it: the check has no rule for a builder's stack that is passed to be read beside its nodes to be changed.
#[tactic(auto, unfolding(standard::specs::Insertion::inserted_text))]
pub fn text_on(
    h: &[u16],
    core: Core,
    nodes: &mut [u8],
    pieces: &mut [u8],
    number: u16,
) -> Result<Core, Refusal>
    requires some { 0 < core.depth }
    requires whole { core.depth ≤ length h.now }
    ensures { (l m q : List ℕ) (x : Option Context) → result_of (answer_number result) (full h.now (value_or result core) x nodes.new l m pieces.new q) ≡ def.inserted_text (full h.now core x nodes.old l m pieces.old q) number }
{
    let p = usual_place_on(nodes, h, core);
    text_at_on(core, nodes, pieces, p, number)
}

/// Call 2, text: 13.2.6.1, "insert a character", for a text number. Text directly before the place gets a further piece; else a text node
/// is made. `NodesFull` where no node is free, `PiecesFull` where no piece is.
#[tactic(auto, unfolding(standard::specs::Insertion::inserted_text, standard::specs::Insertion::text_at, standard::specs::Insertion::joined_text, state::specs::Full::with_pieces, state::specs::Fields::set_pieces, state::specs::Full::with_nodes, state::specs::Fields::set_counts))]
pub fn text(b: &mut Builder<'_>, number: u16) -> Result<(), Refusal>
    requires some { 0 < (full_of b.old).stack.size }
    requires whole { Whole (full_of b.old).stack }
    ensures loans { SameLoans b.old b.new }
    ensures outcome { result_of (answer_number result) (full_of b.new) ≡ def.inserted_text (full_of b.old) number }
{
    let p = place::usual_place(b);
    let before = text_before(b, p);
    if before == Node::NONE {
        return new_text(b, p, number);
    }
    // Joined here: the result of a function that is refused for this alone would be tested again after each record.
    let i = room::next_piece(b)?;
    makers::make::add_piece(b.nodes, b.pieces, Node(before), i, number);
    b.core = b.core.with_pieces(usize::from(i));
    Ok(())
}

// A comment is made as node n, and put at a place.
fn put_comment(nodes: &mut [u8], p: Place, n: Node, number: u16)
    ensures { nodes.new ≡ attached (make_def.comment nodes.old n.0 number) p n.0 }
{
    makers::make::make_comment(nodes, n, number);
    place::attach(nodes, p, n);
}

// A comment at a place, of what is lent apart.
#[tactic(auto, unfolding(standard::specs::Insertion::comment_at, state::specs::Full::with_nodes, state::specs::Fields::set_nodes, state::specs::Fields::set_counts))]
fn comment_at_on(core: Core, nodes: &mut [u8], p: Place, number: u16) -> Result<Core, Refusal>
    ensures { (s l m w q : List ℕ) (x : Option Context) → result_of (answer_number result) (full s (value_or result core) x nodes.new l m w q) ≡ comment_at (full s core x nodes.old l m w q) p number }
{
    let n = room::next_node_on(nodes, core.counts.nodes)?;
    put_comment(nodes, p, n, number);
    Ok(core.with_nodes(usize::from(n.0)))
}

// The place that a number of call 3 stands for, of what is lent apart.
#[tactic(auto, unfolding(standard::specs::Insertion::comment_place))]
fn comment_place_on(nodes: &[u8], h: &[u16], core: Core, at: u16) -> Result<Place, Refusal>
    requires some { 0 < core.depth }
    requires whole { core.depth ≤ length h.now }
    ensures place { (l m w q : List ℕ) (x : Option Context) → IfOk result (λ p. p ≡ comment_place (full h.now core x nodes.now l m w q) at) }
    ensures known { OnOk result (at ≤ 2) }
    ensures unknown { IfErr result (λ e. (e ≡ Unknown) × (2 < at)) }
{
    match at {
        0 => Ok(usual_place_on(nodes, h, core)),
        1 => Ok(Place::End(Node::root())),
        2 => Ok(Place::End(Node::document())),
        _ => Err(Refusal::Unknown),
    }
}

/// Call 3, comment, for a caller that has the stack to read alone: 13.2.6.1, "insert a comment", for a text number. The stack is the first
/// `core.depth` places of `h`. The place is the appropriate one (0), the end of the root (1) or the end of the document (2). Gives the core
/// after the call. `Unknown` for any other number, `NodesFull` where no node is free; then `nodes` are as they were.
// `comment` is no line over it, as `text` is none over `text_on`.
#[tactic(auto, unfolding(standard::specs::Insertion::inserted_comment))]
pub fn comment_on(
    h: &[u16],
    core: Core,
    nodes: &mut [u8],
    at: u16,
    number: u16,
) -> Result<Core, Refusal>
    requires some { 0 < core.depth }
    requires whole { core.depth ≤ length h.now }
    ensures { (l m w q : List ℕ) (x : Option Context) → result_of (answer_number result) (full h.now (value_or result core) x nodes.new l m w q) ≡ def.inserted_comment (full h.now core x nodes.old l m w q) at number }
{
    let p = comment_place_on(nodes, h, core, at)?;
    comment_at_on(core, nodes, p, number)
}

/// Call 3, comment: 13.2.6.1, "insert a comment", for a text number. The place is the appropriate one (0), the end of the root (1) or the
/// end of the document (2). `Unknown` for any other number, `NodesFull` where no node is free.
#[tactic(auto, unfolding(standard::specs::Insertion::inserted_comment, standard::specs::Insertion::comment_place, standard::specs::Insertion::comment_at, state::specs::Full::with_nodes, state::specs::Fields::set_nodes, state::specs::Fields::set_counts))]
pub fn comment(b: &mut Builder<'_>, at: u16, number: u16) -> Result<(), Refusal>
    requires some { 0 < (full_of b.old).stack.size }
    requires whole { Whole (full_of b.old).stack }
    ensures loans { SameLoans b.old b.new }
    ensures outcome { result_of (answer_number result) (full_of b.new) ≡ def.inserted_comment (full_of b.old) at number }
{
    if 2 < at {
        return Err(Refusal::Unknown);
    }
    // Refused here, and not in a function of its own, for the reason that `text` has. Each place is told apart, so that the numbers of the root
    // and of the document are constants.
    let n = room::next_node(b)?;
    match at {
        0 => {
            let p = place::usual_place(b);
            put_comment(b.nodes, p, n, number);
        }
        1 => put_comment(b.nodes, Place::End(Node(Node::ROOT)), n, number),
        _ => put_comment(b.nodes, Place::End(Node(Node::DOCUMENT)), n, number),
    }
    b.core = b.core.with_nodes(usize::from(n.0));
    Ok(())
}

// The tag is refused as unknown.
#[tactic(auto, unfolding(standard::specs::Insertion::bad_tag))]
fn bad_tag(ns: u16, name: u16, flags: u16) -> bool
    ensures { result ≡ bad_tag ns name flags }
{
    if Namespace::SVG < ns || !names::is_name(name) || 3 < flags {
        return true;
    }
    if flags / 2 == 1 {
        return !is_markable(ns, name);
    }
    ns == Namespace::HTML && name == tag::HTML
}

/// Only a MathML annotation-xml can have a mark.
#[tactic(auto, unfolding(standard::specs::Insertion::is_markable))]
pub fn is_markable(ns: u16, name: u16) -> bool
    ensures { result ≡ is_markable ns name }
{
    ns == Namespace::MATHML && name == tag::ANNOTATION_XML
}

// The next node is made, its attributes stored, and it is put at its place.
#[tactic(auto, using(crate::proofs::Laws::nodes_some, lent::proofs::Lowest::fresh_is), unfolding(standard::specs::Insertion::element_in, state::specs::Full::with_nodes, state::specs::Full::with_pairs, state::specs::Fields::set_nodes, state::specs::Fields::set_pairs, state::specs::Fields::set_counts))]
fn element_in(b: &mut Builder<'_>, t: Tag, pairs: Attributes<'_>) -> Node
    requires open { Open (full_of b.old) }
    requires nodes { (full_of b.old).nodes.used < 4096 }
    requires count { pairs.count ≤ 16 }
    ensures number { result.0 ≡ (full_of b.old).nodes.used + 1 }
    ensures loans { SameLoans b.old b.new }
    ensures outcome { full_of b.new ≡ element_in (full_of b.old) t (pairs_in pairs.entry.input.now pairs.entry.from pairs.entry.count) }
    ensures places { length (full_of b.new).stack.free ≡ length (full_of b.old).stack.free }
    ensures list { (full_of b.new).list ≡ (full_of b.old).list }
{
    let used = b.core.counts.nodes;
    let stored = b.core.counts.pairs;
    let p = place::usual_place(b);
    let n = Node(lent::room::next(used));
    makers::make::make_element(b.nodes, n, t);
    place::attach(b.nodes, p, n);
    let count = usize::from(pairs.count);
    pairs::store(b.pairs, stored, pairs.input, pairs.from, count);
    b.core = b
        .core
        .with_nodes(used + t.nodes())
        .with_pairs(stored + usize::from(t.count));
    n
}

// The node is pushed, if it is to be.
#[tactic(auto, unfolding(standard::specs::Insertion::pushed_if, state::specs::Full::with_stack, state::specs::Fields::set_depth))]
fn push_if(b: &mut Builder<'_>, push: bool, n: Node)
    requires { push ≡ true → 0 < length (full_of b.old).stack.free }
    ensures loans { SameLoans b.old b.new }
    ensures outcome { full_of b.new ≡ pushed_if push (full_of b.old) n.0 }
    ensures list { (full_of b.new).list ≡ (full_of b.old).list }
{
    if push {
        let size = places::push(b.stack, b.core.depth, n.0);
        b.core = b.core.with_depth(size);
    }
}

// A push finds no place.
fn is_full(push: bool, depth: usize) -> bool
    ensures { result ≡ push && not (ltb depth 512) }
{
    push && Stack::PLACES <= depth
}

// The element is made and pushed, or nodes, places or pairs are full.
#[tactic(auto, using(crate::proofs::Laws::nodes_some), unfolding(standard::specs::Insertion::element_room, standard::specs::Insertion::element_done))]
fn element_room(
    b: &mut Builder<'_>,
    t: Tag,
    pairs: Attributes<'_>,
    push: bool,
) -> Result<(), Refusal>
    requires open { Open (full_of b.old) }
    requires count { pairs.count ≤ 16 }
    ensures loans { SameLoans b.old b.new }
    ensures outcome { result_of (answer_number result) (full_of b.new) ≡ element_room (full_of b.old) t (pairs_in pairs.entry.input.now pairs.entry.from pairs.entry.count) push }
    ensures list { (full_of b.new).list ≡ (full_of b.old).list }
{
    if room::free_nodes(b) < t.nodes() {
        return Err(Refusal::NodesFull);
    }
    if is_full(push, b.core.depth) {
        return Err(Refusal::StackFull);
    }
    if room::free_pairs(b) < usize::from(t.count) {
        return Err(Refusal::PairsFull);
    }
    let n = element_in(b, t, pairs);
    push_if(b, push, n);
    Ok(())
}

/// Call 1, an element: 13.2.6.1, "insert a foreign element", for HTML elements too, with the attribute pairs of its record.
/// Of the flags, 1 pushes it and 2 gives it a mark. `Unknown` for an unknown namespace, name or flag, a mark on anything but a
/// MathML annotation-xml, HTML html, and pairs that are over 16, of an unknown name or of a name twice; `NodesFull`, `StackFull` and `PairsFull`
/// where there is no room.
#[tactic(auto, unfolding(standard::specs::Insertion::inserted_element, standard::specs::Insertion::new_tag))]
pub fn element(
    b: &mut Builder<'_>,
    ns: u16,
    name: u16,
    flags: u16,
    pairs: Attributes<'_>,
) -> Result<(), Refusal>
    requires { Open (full_of b.old) }
    ensures loans { SameLoans b.old b.new }
    ensures outcome { result_of (answer_number result) (full_of b.new) ≡ def.inserted_element pairs.entry.input.now (full_of b.old) ns name flags pairs.entry.from pairs.entry.count }
    ensures list { (full_of b.new).list ≡ (full_of b.old).list }
{
    if bad_tag(ns, name, flags) || pairs::are_bad(pairs) {
        return Err(Refusal::Unknown);
    }
    let t = Tag {
        space: ns,
        name,
        mark: flags / 2,
        start: b.core.counts.pairs as u16,
        count: pairs.count,
    };
    element_room(b, t, pairs, flags % 2 == 1)
}
