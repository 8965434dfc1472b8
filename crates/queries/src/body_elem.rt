// The body element: the second open element, if it is one.
ghost use Rattle.std.specs.Prelude.{◌≡◌};
ghost use Rattle.places.specs.Places.{places_of};
ghost use Rattle.sound.specs.State.{SoundFull};
ghost use Rattle.edge.specs.Public.{whole_seen, Checked};
ghost use Rattle.queries.specs.Told.{asked, refused};
ghost use Rattle.queries.specs.BodyElem.{second, node_number, FindsNode, body_elem};

use lent::Node;
use location::html;
use names::tag;
use records::refusal::Refusal;
use state::lent::Seen;
use state::{Stack, State};

#[tactic(auto, using(places::proofs::Laws::at_of), unfolding(crate::specs::BodyElem::second))]
fn find(nodes: &[u8], stack: &Stack) -> Option<u16>
    ensures { result ≡ second nodes.now (places_of stack.now.handles stack.now.depth) }
{
    if stack.depth <= 1 {
        return None;
    }
    let n = stack.handles[1];
    if html::is_html(nodes, Node(n), tag::BODY) {
        return Some(n);
    }
    None
}

/// The body element (13.2.6.4.7): the second element of the stack of open elements, if it is a `body`. `Unsound` for a state that is not
/// sound.
pub fn body_elem(state: State, seen: Seen<'_>) -> Result<Option<Node>, Refusal>
    ensures told { Checked (SoundFull (whole_seen state seen.entry)) (asked node_number result) (body_elem (whole_seen state seen.entry)) (refused 1) }
    ensures node { FindsNode result }
{
    if !edge::is_sound(state, seen) {
        return Err(Refusal::Unsound);
    }
    match find(seen.nodes, &state.stack) {
        Some(n) => Ok(Some(Node(n))),
        None => Ok(None),
    }
}
