// 13.2.6, the tree construction dispatcher.
ghost use Rattle.std.specs.Prelude.{◌≡◌, ◌<◌, ◌≤◌, true, false, IfOk, IfErr};
ghost use Rattle.places.specs.Places.{places_of};
ghost use Rattle.sound.specs.State.{SoundFull};
ghost use Rattle.edge.specs.Public.{whole_seen, Checked};
ghost use Rattle.queries.specs.Told.{asked, refused};
ghost use Rattle.queries.specs.Foreign.{kind_number, kind_of, bad_token, flag_number, is_characters, for_text_point, for_annotation, for_html_point, is_html_content, adjusted, is_foreign};

use crate::element;
use crate::element::Expanded;
use lent::Node;
use names::sets::{self, Set};
use names::{Name, Namespace, tag};
use records::refusal::Refusal;
use state::lent::Seen;
use state::{Context, Stack, State};

/// The kinds of tokens (13.2.5). A null character is a kind of its own.
#[derive(Clone, Copy, Debug, PartialEq, Eq)]
pub enum TokenKind {
    StartTag = 0,
    EndTag = 1,
    Characters = 2,
    Null = 3,
    Comment = 4,
    EndOfFile = 5,
}

impl TryFrom<u16> for TokenKind {
    type Error = Refusal;

    ghost try_from_gives = { λ n r. r ≡ kind_of n };

    fn try_from(n: u16) -> Result<Self, Refusal> {
        match n {
            0 => Ok(TokenKind::StartTag),
            1 => Ok(TokenKind::EndTag),
            2 => Ok(TokenKind::Characters),
            3 => Ok(TokenKind::Null),
            4 => Ok(TokenKind::Comment),
            5 => Ok(TokenKind::EndOfFile),
            _ => Err(Refusal::Unknown),
        }
    }
}

// The kind of a token whose kind and name are known: tags have a name, and nothing else has one.
#[tactic(auto, unfolding(crate::specs::Foreign::bad_token))]
fn token(kind: u16, name: u16) -> Result<TokenKind, Refusal>
    ensures known { IfOk result (λ k. (bad_token kind name ≡ false) × (kind_number k ≡ kind)) }
    ensures unknown { IfErr result (λ e. (bad_token kind name ≡ true) × (e ≡ Refusal.Unknown)) }
{
    let token = TokenKind::try_from(kind)?;
    let fits = match token {
        TokenKind::StartTag | TokenKind::EndTag => names::is_name(name),
        _ => name == Name::NONE,
    };
    if fits {
        Ok(token)
    } else {
        Err(Refusal::Unknown)
    }
}

// A null character is one of the characters.
#[tactic(auto, unfolding(crate::specs::Foreign::is_characters))]
fn is_characters(kind: TokenKind) -> bool
    ensures { result ≡ is_characters (kind_number kind) }
{
    matches!(kind, TokenKind::Characters | TokenKind::Null)
}

// A MathML text integration point, and a token that it leaves to the insertion mode.
#[tactic(auto, unfolding(crate::specs::Foreign::for_text_point, crate::specs::Foreign::is_plain_start, crate::specs::Foreign::is_characters))]
fn is_for_text_point(e: Expanded, kind: TokenKind, name: u16) -> bool
    ensures { result ≡ for_text_point e (kind_number kind) name }
{
    Set::MathTextPoints.has(e.space, e.name)
        && match kind {
            TokenKind::StartTag => name != tag::MGLYPH && name != tag::MALIGNMARK,
            _ => is_characters(kind),
        }
}

// MathML annotation-xml, and the start of an svg.
#[tactic(auto, unfolding(crate::specs::Foreign::for_annotation))]
fn is_for_annotation(e: Expanded, kind: TokenKind, name: u16) -> bool
    ensures { result ≡ for_annotation e (kind_number kind) name }
{
    e.space == Namespace::MATHML
        && e.name == tag::ANNOTATION_XML
        && matches!(kind, TokenKind::StartTag)
        && name == tag::SVG
}

// An HTML integration point, and a start tag or characters.
#[tactic(auto, unfolding(crate::specs::Foreign::for_html_point))]
fn is_for_html_point(e: Expanded, kind: TokenKind) -> bool
    ensures { result ≡ for_html_point e (kind_number kind) }
{
    sets::is_html_integration_point(e.space, e.name, e.mark)
        && (matches!(kind, TokenKind::StartTag) || is_characters(kind))
}

// The rules of the insertion mode serve: e is the adjusted current node.
#[tactic(auto, unfolding(crate::specs::Foreign::is_html_content))]
fn is_html_content(e: Expanded, kind: TokenKind, name: u16) -> bool
    ensures { result ≡ is_html_content e (kind_number kind) name }
{
    e.space == Namespace::HTML
        || is_for_text_point(e, kind, name)
        || is_for_annotation(e, kind, name)
        || is_for_html_point(e, kind)
        || matches!(kind, TokenKind::EndOfFile)
}

// The current node, or the context element where only the root is open.
#[tactic(auto, using(places::proofs::Laws::at_of), unfolding(crate::specs::Foreign::adjusted))]
fn adjusted_current_node(nodes: &[u8], stack: &Stack, context: Option<Context>) -> Expanded
    requires some { 0 < stack.now.depth }
    requires deep { stack.now.depth ≤ 512 }
    ensures { result ≡ adjusted nodes.now (places_of stack.now.handles stack.now.depth) context }
{
    let k = stack.depth - 1;
    element::standing(nodes, context, Node(stack.handles[k]), k)
}

/// Whether a token is processed by the rules for foreign content (13.2.6). `kind` is a token's kind by number (`TokenKind`), and `name` a tag's
/// name, 0 for any other token. `Unsound` for a state that is not sound, `Unknown` for an unknown kind, a tag without a known name, or a name
/// for anything but a tag.
pub fn is_foreign(state: State, seen: Seen<'_>, kind: u16, name: u16) -> Result<bool, Refusal>
    ensures { Checked (SoundFull (whole_seen state seen.entry)) (asked flag_number result) (is_foreign (whole_seen state seen.entry) kind name) (refused 1) }
{
    if !edge::is_sound(state, seen) {
        return Err(Refusal::Unsound);
    }
    let token = token(kind, name)?;
    let context = state.context;
    let e = adjusted_current_node(seen.nodes, &state.stack, context);
    Ok(!is_html_content(e, token, name))
}
