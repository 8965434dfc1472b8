// When the tag of an entry is equal to a new one: the same name, and the same pairs in order.
ghost use Rattle.std.specs.Prelude.{◌≡◌, ◌≤◌};
ghost use Rattle.standard.specs.Pairs.{pairs_in};
ghost use Rattle.standard.specs.Formatting.{pairs_of, same_pairs, same_tag};

use lent::wide::pair_field;
use lent::{Node, Pair};
use records::attributes::Attributes;

/// A new tag as its record has it: the name and the attribute pairs.
#[derive(Clone, Copy)]
pub struct Token<'a> {
    pub name: u16,
    pub attributes: Attributes<'a>,
}

// The stored pairs from `start` on are those of the record.
#[tactic(auto, using(crate::proofs::TagLaws::other_name, crate::proofs::TagLaws::other_text, crate::proofs::TagLaws::same_end))]
fn are_same(pairs: &[u8], start: usize, attributes: Attributes<'_>) -> bool
    requires start { start ≤ 65535 }
    ensures { result ≡ same_pairs (pairs_of pairs.now start attributes.entry.count) (pairs_in attributes.entry.input.now attributes.entry.from attributes.entry.count) }
{
    let mut at = attributes.from;
    for i in 0..usize::from(attributes.count) {
        let p = records::pair_at(attributes.input, at);
        if pair_field(pairs, start + i, Pair::NAME) != p.name {
            return false;
        }
        if pair_field(pairs, start + i, Pair::VALUE) != p.text {
            return false;
        }
        at = p.next;
    }
    true
}

/// Whether entry n has the new tag: 13.2.4.3, "push onto the list of active formatting elements", step 1.
#[tactic(auto, using(crate::proofs::TagLaws::tag_name, crate::proofs::TagLaws::tag_count, crate::proofs::TagLaws::tag_pairs))]
pub fn is_same_tag(nodes: &[u8], pairs: &[u8], t: Token<'_>, n: Node) -> bool
    ensures { result ≡ same_tag nodes.now pairs.now t.entry.name (pairs_in t.entry.attributes.input.now t.entry.attributes.from t.entry.attributes.count) n.0 }
{
    if lent::get(nodes, n, Node::NAME) != t.name {
        return false;
    }
    if lent::get(nodes, n, Node::COUNT) != t.attributes.count {
        return false;
    }
    let start = usize::from(lent::get(nodes, n, Node::START));
    are_same(pairs, start, t.attributes)
}
