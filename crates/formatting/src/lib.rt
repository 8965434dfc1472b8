#![tactic(auto)]
// Call 4: an element is created for a formatting tag, and pushed onto the list of active formatting elements (13.2.4.3).
ghost use Rattle.std.specs.Prelude.{◌≡◌, ◌<◌, ◌+◌, false, length, not, ltb};
ghost use Rattle.std.specs.Option.{ForSome};
ghost use Rattle.places.specs.Places.{Whole, left_at};
ghost use Rattle.records.specs.Refusal.{answer_number};
ghost use Rattle.state.specs.Builder.{SameLoans, full_of};
ghost use Rattle.state.specs.Full.{result_of};
ghost use Rattle.state.specs.Open.{Open};
ghost use Rattle.standard.specs.Small.{room};
ghost use Rattle.standard.specs.Formatting.{listed, bad_formatting, created_for, created};

use entries::surplus;
use entries::tags::Token;
use insertion::room;
use lent::Node;
use names::Namespace;
use names::sets::Set;
use records::attributes::Attributes;
use records::refusal::Refusal;
use state::builder::Builder;
use state::{Counts, Stack};

// The flags of call 1: push, and no mark.
const PUSH: u16 = 1;

// The name or the pairs are refused as unknown.
#[tactic(auto, unfolding(standard::specs::Formatting::bad_formatting))]
fn is_bad(name: u16, pairs: Attributes<'_>) -> bool
    ensures { result ≡ bad_formatting pairs.entry.input.now name pairs.entry.from pairs.entry.count }
{
    !Set::Formatting.has(Namespace::HTML, name) || insertion::pairs::are_bad(pairs)
}

// The list has no room for one more, when the surplus entry has left.
#[tactic(auto, using(crate::proofs::Laws::left_room, crate::proofs::Laws::size_some, crate::proofs::Laws::size_none))]
fn is_full(b: &Builder<'_>, extra: Option<usize>) -> bool
    requires whole { Whole (full_of b.now).list }
    requires extra { ForSome extra (λ i. i < (full_of b.now).list.size) }
    ensures { result ≡ not (ltb (left_at extra (full_of b.now).list).size (room 256 (left_at extra (full_of b.now).list))) }
{
    let size = b.core.counts.list;
    let most = b.list.len().min(Counts::LIST);
    match extra {
        Some(_) => most <= size - 1,
        None => most <= size,
    }
}

// The surplus entry leaves the list, and n comes in.
#[tactic(auto, unfolding(standard::specs::Formatting::listed, places::specs::Places::left_at, state::specs::Full::with_list, state::specs::Fields::set_list, state::specs::Fields::set_counts))]
fn enlist(b: &mut Builder<'_>, extra: Option<usize>, n: Node)
    requires whole { Whole (full_of b.old).list }
    requires extra { ForSome extra (λ i. i < (full_of b.old).list.size) }
    requires room { (left_at extra (full_of b.old).list).size < length (full_of b.old).list.held + length (full_of b.old).list.free }
    ensures loans { SameLoans b.old b.new }
    ensures outcome { full_of b.new ≡ listed (full_of b.old) (left_at extra (full_of b.old).list) n.0 }
{
    let size = b.core.counts.list;
    let less = match extra {
        Some(i) => places::remove_at(b.list, size, i),
        None => size,
    };
    let more = places::push(b.list, less, n.0);
    b.core = b.core.with_list(more);
}

// The element is inserted, pushed and listed, or nodes, places or pairs are full.
#[tactic(auto, using(crate::proofs::Laws::element_case, crate::proofs::Laws::extra_below, crate::proofs::Laws::left_fits, records::proofs::Refusals::number_of_some), unfolding(standard::specs::Formatting::created_for, standard::specs::Formatting::created_room, standard::specs::Formatting::spared, standard::specs::Insertion::new_tag))]
fn create_listed(b: &mut Builder<'_>, t: Token<'_>) -> Result<(), Refusal>
    requires open { Open (full_of b.old) }
    requires whole { Whole (full_of b.old).list }
    requires good { bad_formatting t.attributes.input.now t.name t.attributes.from t.attributes.count ≡ false }
    ensures loans { SameLoans b.old b.new }
    ensures outcome { result_of (answer_number result) (full_of b.new) ≡ created_for t.entry.attributes.input.now (full_of b.old) t.entry.name t.entry.attributes.from t.entry.attributes.count }
{
    let n = room::next_node(b)?;
    if Stack::PLACES <= b.core.depth {
        return Err(Refusal::StackFull);
    }
    let extra = surplus::surplus(b, t);
    if is_full(b, extra) {
        return Err(Refusal::PlacesFull);
    }
    insertion::element(b, Namespace::HTML, t.name, PUSH, t.attributes)?;
    enlist(b, extra, n);
    Ok(())
}

/// Call 4, an element for a formatting tag: 13.2.4.3, "push onto the list of active formatting elements". The element, with the attribute
/// pairs of its record, is inserted and pushed as by call 1, and comes onto the list; of three equal ones after the
/// last marker the earliest leaves it. `Unknown` for a name that is no formatting name and for pairs as in call 1; `NodesFull`, `StackFull`,
/// `PlacesFull` and `PairsFull` where there is no room.
#[tactic(auto, unfolding(standard::specs::Formatting::created))]
pub fn create_formatting_element_for(
    b: &mut Builder<'_>,
    name: u16,
    pairs: Attributes<'_>,
) -> Result<(), Refusal>
    requires open { Open (full_of b.old) }
    requires whole { Whole (full_of b.old).list }
    ensures loans { SameLoans b.old b.new }
    ensures outcome { result_of (answer_number result) (full_of b.new) ≡ created pairs.entry.input.now (full_of b.old) name pairs.entry.from pairs.entry.count }
{
    if is_bad(name, pairs) {
        return Err(Refusal::Unknown);
    }
    let t = Token {
        name,
        attributes: pairs,
    };
    create_listed(b, t)
}
