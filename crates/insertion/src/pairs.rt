// The attribute pairs of a call, read from its record.
ghost use Rattle.std.specs.Prelude.{◌≡◌, [], ◌≤◌};
ghost use Rattle.std.specs.Bool.{OnFalse};
ghost use Rattle.names.specs.Sets.{member};
ghost use Rattle.standard.specs.Insertion.{bad_pairs};
ghost use Rattle.standard.specs.Pairs.{pairs_in, fine, stored};

use records::attributes::Attributes;

// n is one of xs.
fn has(xs: &[u16], n: u16) -> bool
    ensures { result ≡ member n xs.now }
{
    xs.contains(&n)
}

// `are_fine` and `store` take a count of 64 bits, which `Attributes` has not: what they take is not narrowed.

/// Each of the pairs from byte `from` on has a known name, and none a name twice.
#[tactic(auto, using(crate::proofs::PairsLaws::pairs_more, crate::proofs::PairsLaws::pairs_none, crate::proofs::PairsLaws::seen_more), unfolding(standard::specs::Pairs::fine))]
pub fn are_fine(input: &[u8], from: usize, count: usize) -> bool
    requires { count ≤ 16 }
    ensures { result ≡ fine [] (pairs_in input.now from count) }
{
    let mut seen = [0u16; 16];
    let mut at = from;
    for i in 0..count {
        let p = records::pair_at(input, at);
        if !names::is_name(p.name) || has(&seen[..i], p.name) {
            return false;
        }
        seen[i] = p.name;
        at = p.next;
    }
    true
}

/// The pairs are refused as unknown: they are over 16, or one has an unknown name or the name of an earlier one.
#[tactic(auto, unfolding(standard::specs::Insertion::bad_pairs))]
pub fn are_bad(pairs: Attributes<'_>) -> bool
    ensures bad { result ≡ bad_pairs pairs.entry.input.now pairs.entry.from pairs.entry.count }
    ensures few { OnFalse result (pairs.entry.count ≤ 16) }
{
    16 < pairs.count || !are_fine(pairs.input, pairs.from, usize::from(pairs.count))
}

/// The pairs from byte `from` on are stored from number `used` on.
#[tactic(auto, using(crate::proofs::PairsLaws::stored_more, crate::proofs::PairsLaws::stored_none))]
pub fn store(pairs: &mut [u8], used: usize, input: &[u8], from: usize, count: usize)
    requires count_bound { count ≤ 16 }
    requires used_bound { used ≤ 4096 }
    ensures { pairs.new ≡ stored pairs.old used (pairs_in input.now from count) }
{
    let mut at = from;
    for i in 0..count {
        let p = records::pair_at(input, at);
        makers::make::make_pair(pairs, (used + i) as u16, p.name, p.text);
        at = p.next;
    }
}
