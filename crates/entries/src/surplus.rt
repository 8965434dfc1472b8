// The entry that a fourth equal tag drives out: the earliest of three or more after the last marker.
ghost use Rattle.std.specs.Prelude.{◌≡◌, ◌≤◌, length, take, drop};
ghost use Rattle.places.specs.Places.{Whole, places_of, first_with};
ghost use Rattle.standard.specs.Pairs.{pairs_in};
ghost use Rattle.standard.specs.Formatting.{same_tag, how_many, after_marker};
ghost use Rattle.standard.specs.Formatting as def;
ghost use Rattle.state.specs.Builder.{full_of};

use crate::tags;
use crate::tags::Token;
use lent::Node;
use state::builder::Builder;

// Where the entries after the last marker begin.
#[tactic(auto, using(crate::proofs::SurplusLaws::marker_at, crate::proofs::SurplusLaws::marker_none))]
fn after_marker(list: &[u16], size: usize) -> usize
    requires { size ≤ length list.now }
    ensures most { result ≤ size }
    ensures first { result ≡ after_marker (places_of list.now size) }
{
    match places::find(list, size, Node::MARKER) {
        Some(i) => i + 1,
        None => 0,
    }
}

// How many of the entries have the tag.
fn how_many(nodes: &[u8], pairs: &[u8], t: Token<'_>, entries: &[u16]) -> usize
    ensures { result ≡ how_many (same_tag nodes.now pairs.now t.entry.name (pairs_in t.entry.attributes.input.now t.entry.attributes.from t.entry.attributes.count)) entries.now }
{
    let mut n: usize = 0;
    for &entry in entries {
        n += usize::from(tags::is_same_tag(nodes, pairs, t, Node(entry)));
    }
    n
}

// The first entry from `first` on that has the tag. All are looked at: `first_of` alone says which of two stays.
fn first_same(
    nodes: &[u8],
    pairs: &[u8],
    t: Token<'_>,
    list: &[u16],
    size: usize,
    first: usize,
) -> Option<usize>
    requires first { first ≤ size }
    requires whole { size ≤ length list.now }
    ensures { result ≡ first_with (same_tag nodes.now pairs.now t.entry.name (pairs_in t.entry.attributes.input.now t.entry.attributes.from t.entry.attributes.count)) (drop first (take size list.now)) first }
{
    let mut found = None;
    for i in first..size {
        let same = tags::is_same_tag(nodes, pairs, t, Node(list[i]));
        let here = same.then_some(i);
        found = places::first_of(found, here);
    }
    found
}

/// The one of the first `size` entries of `list` that a further element with the new tag drives out: 13.2.4.3, "push onto the list of active
/// formatting elements", step 1. It is `surplus` for a caller that has `nodes` and `pairs` to read alone.
#[tactic(auto, using(crate::proofs::SurplusLaws::surplus_none, crate::proofs::SurplusLaws::surplus_at))]
pub fn surplus_on(
    nodes: &[u8],
    pairs: &[u8],
    t: Token<'_>,
    list: &[u16],
    size: usize,
) -> Option<usize>
    requires { size ≤ length list.now }
    ensures { result ≡ def.surplus (same_tag nodes.now pairs.now t.entry.name (pairs_in t.entry.attributes.input.now t.entry.attributes.from t.entry.attributes.count)) (places_of list.now size) }
{
    let first = after_marker(list, size);
    let entries = &list[first..size];
    if how_many(nodes, pairs, t, entries) < 3 {
        return None;
    }
    first_same(nodes, pairs, t, list, size, first)
}

/// The entry that a further element with the new tag drives out: 13.2.4.3, "push onto the list of active formatting elements", step 1.
pub fn surplus(b: &Builder<'_>, t: Token<'_>) -> Option<usize>
    requires { Whole (full_of b.now).list }
    ensures { result ≡ def.surplus (same_tag (full_of b.now).nodes.mem (full_of b.now).pairs.mem t.entry.name (pairs_in t.entry.attributes.input.now t.entry.attributes.from t.entry.attributes.count)) (full_of b.now).list }
{
    surplus_on(b.nodes, b.pairs, t, b.list, b.core.counts.list)
}
