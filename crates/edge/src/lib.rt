#![tactic(auto)]
// The state check at the edge: the record and the lent memory as one state.
ghost use Rattle.std.specs.Prelude.{Option};
ghost use Rattle.theory.specs.Says.{Says};
ghost use Rattle.sound.specs.State.{SoundFull};
ghost use Rattle.state.specs.Builder.{full_of};
ghost use Rattle.state.specs.Full.{full};
ghost use Rattle.edge.specs.Public.{whole_seen};

use state::builder::Builder;
use state::lent::Seen;
use state::{Context, Core, Stack, State};

/// Whether the state is sound, for a caller that has all that is lent to read alone: `check` without a builder. The stack's places, `h`, stand
/// in an array in a `State` and are lent in a `Builder`, so they come beside the rest. Yes exactly where every rule of docs/LAYOUT.md holds.
pub fn check_on(h: &[u16], core: Core, context: Option<Context>, seen: Seen<'_>) -> bool
    ensures { Says (SoundFull (full h.now core context seen.entry.nodes.now seen.entry.list.now seen.entry.modes.now seen.entry.pieces.now seen.entry.pairs.now)) result }
{
    if h.len() != Stack::PLACES {
        return false;
    }
    sound::sound(h, core, context, seen)
}

/// Whether the state that the builder holds is sound: the check of a run, which makes it once.
pub fn check(b: &Builder<'_>) -> bool
    ensures { Says (SoundFull (full_of b.now)) result }
{
    let seen = Seen {
        nodes: b.nodes,
        list: b.list,
        modes: b.modes,
        pieces: b.pieces,
        pairs: b.pairs,
    };
    check_on(b.stack, b.core, b.context, seen)
}

/// Whether the state is sound: yes exactly where every rule of docs/LAYOUT.md and `sound/specs/Sound.antt` holds, whatever the record and the
/// lent memory are.
pub fn is_sound(state: State, seen: Seen<'_>) -> bool
    ensures { Says (SoundFull (whole_seen state seen.entry)) result }
{
    let core = state.core();
    let context = state.context;
    check_on(&state.stack.handles, core, context, seen)
}
