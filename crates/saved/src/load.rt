// From words to a state (docs/LAYOUT.md).
use crate::region::Region;
use state::{Context, Counts, Flags, Stack, State};

/// The words of the capacities and of the record: the places of the stack come after them.
pub const RECORD: usize = 17;

/// Word i of a saved state: 0 past its end.
pub fn word(s: &[u8], i: usize) -> u16 {
    if i < s.len() / 2 {
        return u16::from_le_bytes([s[i * 2], s[i * 2 + 1]]);
    }
    0
}

/// The same as a count.
pub fn number(s: &[u8], i: usize) -> usize {
    usize::from(word(s, i))
}

/// So many slots of a region, and no more than its largest size has, from the word `from` on; the answer is the word after them. A slot that
/// is not lent is passed over.
pub fn slots(s: &[u8], from: usize, of: Region, mem: &mut [u8], count: usize) -> usize {
    let total = of.words(count);
    for k in 0..total {
        of.put(mem, k, word(s, from.saturating_add(k)));
    }
    from.saturating_add(total)
}

/// So many numbers, and no more than there are places for, from the word `from` on; the answer is the word after them.
pub fn places(s: &[u8], from: usize, out: &mut [u16], count: usize) -> usize {
    let total = count.min(out.len());
    for k in 0..total {
        out[k] = word(s, from.saturating_add(k));
    }
    from.saturating_add(total)
}

/// The context from four words: anything but 0 in the first means that there is one.
pub fn context(s: &[u8], i: usize) -> Option<Context> {
    if word(s, i) == 0 {
        return None;
    }
    Some(Context {
        space: word(s, i.saturating_add(1)),
        name: word(s, i.saturating_add(2)),
        mark: word(s, i.saturating_add(3)),
    })
}

/// The record: words 5 to 16, and the places of the stack after them.
pub fn record(s: &[u8]) -> State {
    let depth = number(s, 10);
    let mut handles = [0u16; Stack::PLACES];
    places(s, RECORD, &mut handles, depth);
    State {
        stack: Stack { handles, depth },
        counts: Counts {
            nodes: number(s, 5),
            pieces: number(s, 8),
            pairs: number(s, 9),
            list: number(s, 6),
            modes: number(s, 7),
        },
        flags: Flags {
            foster: number(s, 11),
            head: number(s, 12),
        },
        context: context(s, 13),
    }
}
