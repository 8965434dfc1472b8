// 13.4, parsing fragments: the tokenizer's state by the context element.
ghost use Rattle.std.specs.Prelude.{◌≡◌};
ghost use Rattle.sound.specs.State.{SoundFull};
ghost use Rattle.edge.specs.Public.{whole_seen, Checked};
ghost use Rattle.queries.specs.Told.{asked, refused};
ghost use Rattle.queries.specs.Tokenizer.{state_number, state_for, state_in, for_context, tokenizer_state};

use names::{Namespace, tag};
use records::refusal::Refusal;
use state::lent::Seen;
use state::{Context, State};

/// A state of the tokenizer in which a fragment may begin.
#[derive(Clone, Copy, Debug, PartialEq, Eq)]
pub enum TokenizerState {
    Data = 0,
    Rcdata = 1,
    Rawtext = 2,
    ScriptData = 3,
    Plaintext = 4,
}

impl TokenizerState {
    /// Its number, from 0 to 4.
    pub fn number(self) -> usize
        ensures { result ≡ state_number self }
    {
        // std has no From for an enum's number: as reads it.
        self as usize
    }
}

// For an HTML element with this name.
#[tactic(auto, unfolding(crate::specs::Tokenizer::state_for))]
fn state_for(name: u16, scripting: u16) -> TokenizerState
    ensures { result ≡ state_for scripting name }
{
    match name {
        tag::TITLE | tag::TEXTAREA => TokenizerState::Rcdata,
        tag::STYLE | tag::XMP | tag::IFRAME | tag::NOEMBED | tag::NOFRAMES =>
            TokenizerState::Rawtext,
        tag::SCRIPT => TokenizerState::ScriptData,
        tag::NOSCRIPT if scripting == 1 => TokenizerState::Rawtext,
        tag::PLAINTEXT => TokenizerState::Plaintext,
        _ => TokenizerState::Data,
    }
}

// For any element.
#[tactic(auto, unfolding(crate::specs::Tokenizer::state_in))]
fn state_in(space: u16, name: u16, scripting: u16) -> TokenizerState
    ensures { result ≡ state_in scripting space name }
{
    if space == Namespace::HTML {
        state_for(name, scripting)
    } else {
        TokenizerState::Data
    }
}

// For the context element, where there is one.
#[tactic(auto, unfolding(crate::specs::Tokenizer::for_context, crate::specs::Tokenizer::given))]
fn for_context(context: Option<Context>, scripting: u16) -> Result<TokenizerState, Refusal>
    ensures { asked state_number result ≡ for_context scripting context }
{
    match context {
        None => Err(Refusal::NothingToDo),
        Some(x) => Ok(state_in(x.space, x.name, scripting)),
    }
}

/// The tokenizer's state for the context element (13.4). `scripting` is 1 where the scripting flag is on, else 0. `Unsound` for a state that
/// is not sound, `Unknown` for any other flag, `NothingToDo` without a context.
pub fn tokenizer_state_for_context_elem(
    state: State,
    seen: Seen<'_>,
    scripting: u16,
) -> Result<TokenizerState, Refusal>
    ensures { Checked (SoundFull (whole_seen state seen.entry)) (asked state_number result) (tokenizer_state (whole_seen state seen.entry) scripting) (refused 1) }
{
    if !edge::is_sound(state, seen) {
        return Err(Refusal::Unsound);
    }
    if 1 < scripting {
        return Err(Refusal::Unknown);
    }
    let context = state.context;
    for_context(context, scripting)
}
