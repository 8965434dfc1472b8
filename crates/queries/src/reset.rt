// 13.2.4.1, "reset the insertion mode appropriately".
ghost use Rattle.std.specs.Prelude.{◌≡◌, ◌≤◌, length};
ghost use Rattle.places.specs.Places.{places_of};
ghost use Rattle.sound.specs.State.{SoundFull};
ghost use Rattle.edge.specs.Public.{whole_seen, Checked};
ghost use Rattle.queries.specs.Told.{asked, refused};
ghost use Rattle.queries.specs.Reset.{mode_for, mode_at, walked, mode_number, given, reset_mode};

use crate::element;
use crate::element::Expanded;
use lent::Node;
use names::{Namespace, tag};
use records::refusal::Refusal;
use state::lent::Seen;
use state::{Context, Stack, State};

/// An insertion mode, by its number in the standard's order, from 1 to 21 (13.2.4.1).
#[derive(Clone, Copy, Debug, PartialEq, Eq)]
pub struct Mode(pub u16);

impl Mode {
    pub const BEFORE_HEAD: u16 = 3;

    pub const IN_HEAD: u16 = 4;

    pub const AFTER_HEAD: u16 = 6;

    pub const IN_BODY: u16 = 7;

    pub const IN_TABLE: u16 = 9;

    pub const IN_CAPTION: u16 = 11;

    pub const IN_COLUMN_GROUP: u16 = 12;

    pub const IN_TABLE_BODY: u16 = 13;

    pub const IN_ROW: u16 = 14;

    pub const IN_CELL: u16 = 15;

    pub const IN_FRAMESET: u16 = 18;
}

/// What an entry of the stack decides, or the stack: the mode, or that it is the current template insertion mode.
#[derive(Clone, Copy, Debug, PartialEq, Eq)]
pub enum Reset {
    Mode(u16),
    Template,
}

// Steps 4 to 14 for an HTML element with this name.
#[tactic(auto, unfolding(crate::specs::Reset::mode_for))]
fn mode_for(name: u16, last: bool, head: usize) -> Option<Reset>
    ensures { result ≡ mode_for head last name }
{
    match name {
        tag::TD | tag::TH if !last => Some(Reset::Mode(Mode::IN_CELL)),
        tag::TR => Some(Reset::Mode(Mode::IN_ROW)),
        tag::TBODY | tag::THEAD | tag::TFOOT => Some(Reset::Mode(Mode::IN_TABLE_BODY)),
        tag::CAPTION => Some(Reset::Mode(Mode::IN_CAPTION)),
        tag::COLGROUP => Some(Reset::Mode(Mode::IN_COLUMN_GROUP)),
        tag::TABLE => Some(Reset::Mode(Mode::IN_TABLE)),
        tag::TEMPLATE => Some(Reset::Template),
        tag::HEAD if !last => Some(Reset::Mode(Mode::IN_HEAD)),
        tag::BODY => Some(Reset::Mode(Mode::IN_BODY)),
        tag::FRAMESET => Some(Reset::Mode(Mode::IN_FRAMESET)),
        tag::HTML if head == 0 => Some(Reset::Mode(Mode::BEFORE_HEAD)),
        tag::HTML => Some(Reset::Mode(Mode::AFTER_HEAD)),
        _ => None,
    }
}

// The same for any element.
#[tactic(auto, unfolding(crate::specs::Reset::mode_at))]
fn mode_at(e: Expanded, last: bool, head: usize) -> Option<Reset>
    ensures { result ≡ mode_at head last e }
{
    if e.space == Namespace::HTML {
        mode_for(e.name, last, head)
    } else {
        None
    }
}

// From the current node up, until an entry decides.
#[tactic(auto, unfolding(crate::specs::Reset::walked))]
fn walk(nodes: &[u8], stack: &Stack, context: Option<Context>, head: usize) -> Reset
    requires { stack.now.depth ≤ 512 }
    ensures { result ≡ walked nodes.now (places_of stack.now.handles stack.now.depth) context head stack.now.depth }
{
    for k in (0..stack.depth).rev() {
        let e = element::standing(nodes, context, Node(stack.handles[k]), k);
        if let Some(found) = mode_at(e, k == 0, head) {
            return found;
        }
    }
    Reset::Mode(Mode::IN_BODY)
}

// The last template mode, if there is one.
#[tactic(auto, using(places::proofs::Laws::at_of), unfolding(crate::specs::Reset::given))]
fn current_mode(modes: &[u16]) -> Result<Mode, Refusal>
    ensures { asked mode_number result ≡ given Reset.Template (places_of modes.now (length modes.now)) }
{
    match modes.last() {
        Some(mode) => Ok(Mode(*mode)),
        None => Err(Refusal::NothingToDo),
    }
}

/// The insertion mode that a reset gives (13.2.4.1). `Unsound` for a state that is not sound, `NothingToDo` at a template where there is no
/// template mode.
pub fn reset_insertion_mode(state: State, seen: Seen<'_>) -> Result<Mode, Refusal>
    ensures { Checked (SoundFull (whole_seen state seen.entry)) (asked mode_number result) (reset_mode (whole_seen state seen.entry)) (refused 1) }
{
    if !edge::is_sound(state, seen) {
        return Err(Refusal::Unsound);
    }
    let context = state.context;
    match walk(seen.nodes, &state.stack, context, state.flags.head) {
        Reset::Mode(m) => Ok(Mode(m)),
        Reset::Template => {
            let modes = &seen.modes[..state.counts.modes];
            current_mode(modes)
        }
    }
}
