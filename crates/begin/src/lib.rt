#![tactic(auto)]
// Begin: a new state, whatever the lent memory holds.
ghost use Rattle.std.specs.Prelude.{◌≡◌, set, Some};
ghost use Rattle.records.specs.Refusal.{answer_number, value_or};
ghost use Rattle.state.specs.declared.State.{State};
ghost use Rattle.standard.specs.Begin.{bad_mark, bad_context, is_template_context, first_modes, begin_answer, begin_nodes, begin_modes, begin_state, begun, begin_of};

use lent::Node;
use makers::make::Tag;
use names::{Namespace, tag};
use records::refusal::Refusal;
use state::{Context, Counts, Flags, Stack, State};

// The number of the mode In template.
const IN_TEMPLATE: u16 = 16;

#[tactic(auto, unfolding(standard::specs::Begin::bad_mark))]
fn bad_mark(ns: u16, name: u16, mark: u16) -> bool
    ensures { result ≡ bad_mark ns name mark }
{
    match mark {
        0 => false,
        1 => !insertion::is_markable(ns, name),
        _ => true,
    }
}

#[tactic(auto, using(std::proofs::lemmas::Grind::common_steps), unfolding(standard::specs::Begin::bad_context))]
fn bad_context(context: Option<Context>) -> bool
    ensures { result ≡ bad_context context }
{
    match context {
        None => false,
        Some(Context { space, name, mark }) => Namespace::SVG < space
            || !names::is_name(name)
            || bad_mark(space, name, mark),
    }
}

#[tactic(auto, unfolding(standard::specs::Begin::is_template_context))]
fn is_template_context(context: Option<Context>) -> bool
    ensures { result ≡ is_template_context context }
{
    match context {
        None => false,
        Some(
            Context {
                space,
                name,
                mark: _,
            },
        ) => space == Namespace::HTML && name == tag::TEMPLATE,
    }
}

#[tactic(auto, unfolding(standard::specs::Begin::first_modes))]
fn first_modes(context: Option<Context>) -> usize
    ensures { result ≡ first_modes context }
{
    usize::from(is_template_context(context))
}

// Whether there is room for it, and a context that is known.
#[tactic(auto, unfolding(standard::specs::Begin::begin_answer))]
fn test(nodes: &[u8], modes: &[u16], context: Option<Context>) -> Result<(), Refusal>
    ensures { answer_number result ≡ begin_answer nodes.now modes.now context }
{
    if bad_context(context) {
        return Err(Refusal::Unknown);
    }
    if lent::room::free_nodes(nodes, 0) < 2 {
        return Err(Refusal::NodesFull);
    }
    if modes.len().min(Counts::MODES) < first_modes(context) {
        return Err(Refusal::PlacesFull);
    }
    Ok(())
}

// The document and its root.
fn begin_nodes(nodes: &mut [u8])
    ensures { nodes.new ≡ begin_nodes nodes.old }
{
    makers::make::make_document(nodes, Node(Node::DOCUMENT));
    let t = Tag {
        space: Namespace::HTML,
        name: tag::HTML,
        mark: 0,
        start: 0,
        count: 0,
    };
    makers::make::make_element(nodes, Node(Node::ROOT), t);
    arena::links::append(nodes, Node(Node::DOCUMENT), Node(Node::ROOT));
}

fn begin_modes(modes: &mut [u16], context: Option<Context>)
    ensures { modes.new ≡ begin_modes modes.old context }
{
    if is_template_context(context) {
        put_first(modes, IN_TEMPLATE);
    }
}

// A store that does nothing where there is no place.
fn put_first(modes: &mut [u16], v: u16)
    ensures { modes.new ≡ set modes.old 0 v }
{
    if let Some(first) = modes.first_mut() {
        *first = v;
    }
}

fn begin_state(context: Option<Context>) -> State
    ensures { result ≡ begin_state context }
{
    let count = first_modes(context);
    let mut handles = [0u16; 512];
    handles[0] = Node::ROOT;
    State {
        stack: Stack {
            handles: handles,
            depth: 1,
        },
        counts: Counts {
            nodes: 2,
            pieces: 0,
            pairs: 0,
            list: 0,
            modes: count,
        },
        flags: Flags { foster: 0, head: 0 },
        context: context,
    }
}

#[tactic(auto, using(crate::proofs::Laws::begin_refused, crate::proofs::Laws::begin_done))]
/// A new document in lent memory, whatever it holds: 13.2.4 and, with a context, 13.4. The record of a fresh state. `Unknown` for a context that no
/// element may be, `NodesFull` without room for the document and its root, `PlacesFull` where a template's mode finds no place; what was lent is
/// kept then.
pub fn begin(
    nodes: &mut [u8],
    modes: &mut [u16],
    context: Option<Context>,
) -> Result<State, Refusal>
    ensures { (st : State) → begun (answer_number result) (value_or result st) nodes.new modes.new ≡ begin_of st nodes.old modes.old context }
{
    test(nodes, modes, context)?;
    begin_nodes(nodes);
    begin_modes(modes, context);
    Ok(begin_state(context))
}
