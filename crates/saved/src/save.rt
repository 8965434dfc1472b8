// From a state to hexadecimal text (docs/LAYOUT.md): each word low byte first, two digits a byte.
use crate::region::Region;
use dump::page::Page;
use state::lent::Seen;
use state::{Context, State};

// The digit of a number below 16.
fn digit(v: u8) -> u8 {
    b"0123456789abcdef"[usize::from(v % 16)]
}

/// Writes a word: the four digits of its two bytes.
pub fn put_word(v: u16, page: &mut Page<'_>) {
    for b in v.to_le_bytes() {
        page.byte(digit(b / 16));
        page.byte(digit(b % 16));
    }
}

/// Writes the low 16 bits of a number as a word.
pub fn put_number(v: usize, page: &mut Page<'_>) {
    put_word((v % 65536) as u16, page);
}

// So many slots of a region, and no more than are lent.
fn put_slots(of: Region, mem: &[u8], count: usize, page: &mut Page<'_>) {
    for k in 0..of.words(count.min(of.slots(mem))) {
        put_word(of.get(mem, k), page);
    }
}

// So many places, and no more than there are.
fn put_places(s: &[u16], count: usize, page: &mut Page<'_>) {
    for &v in &s[..count.min(s.len())] {
        put_word(v, page);
    }
}

fn put_context(context: Option<Context>, page: &mut Page<'_>) {
    let words = match context {
        None => [0; 4],
        Some(Context { space, name, mark }) => [1, space, name, mark],
    };
    put_places(&words, 4, page);
}

// The record's words.
fn put_record(st: &State, page: &mut Page<'_>) {
    put_number(st.counts.nodes, page);
    put_number(st.counts.list, page);
    put_number(st.counts.modes, page);
    put_number(st.counts.pieces, page);
    put_number(st.counts.pairs, page);
    put_number(st.stack.depth, page);
    put_number(st.flags.foster, page);
    put_number(st.flags.head, page);
    put_context(st.context, page);
    put_places(&st.stack.handles, st.stack.depth, page);
}

/// Writes the whole state: the capacities, the record, and what is used of each lent region. A count over its capacity is written as it
/// is, and the capacity's part after it.
pub fn put_state(st: State, seen: Seen<'_>, page: &mut Page<'_>) {
    put_number(Region::Nodes.slots(seen.nodes), page);
    put_number(seen.list.len(), page);
    put_number(seen.modes.len(), page);
    put_number(Region::Pieces.slots(seen.pieces), page);
    put_number(Region::Pairs.slots(seen.pairs), page);
    put_record(&st, page);
    put_slots(Region::Nodes, seen.nodes, st.counts.nodes, page);
    put_places(seen.list, st.counts.list, page);
    put_places(seen.modes, st.counts.modes, page);
    put_slots(Region::Pieces, seen.pieces, st.counts.pieces, page);
    put_slots(Region::Pairs, seen.pairs, st.counts.pairs, page);
}
