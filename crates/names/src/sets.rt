// The sets of names, by namespace and name.
ghost use Rattle.std.specs.Prelude.{◌≡◌};
ghost use Rattle.names.specs.Sets.{is_in, is_html_point, Formatting, Special, DefaultScope, ListItemScope, ButtonScope, TableScope, Cursory, Thorough, FosterTargets, MathTextPoints};
ghost use Rattle.names.specs.Words.{in_words};

use crate::{Namespace, tag, words};

// Whether the words have the bit of the name.
fn in_words(ws: &[u64; words::ALL], space: u16, name: u16) -> bool
    ensures { result ≡ in_words ws.now space name }
{
    let i = usize::from(space) * words::EACH + usize::from(name / 64);
    space < Namespace::LIMIT && name < words::SPAN && (ws[i] >> (name % 64)) % 2 == 1
}

/// A set of names that the rules speak of, each with its section of the standard.
#[derive(Clone, Copy, Debug, PartialEq, Eq)]
pub enum Set {
    /// The formatting elements, 13.2.4.2.
    Formatting,
    /// The special elements, 13.2.4.2.
    Special,
    /// What ends a walk for the default scope, 13.2.4.2.
    DefaultScope,
    /// The same for list item scope.
    ListItemScope,
    /// The same for button scope.
    ButtonScope,
    /// The same for table scope.
    TableScope,
    /// The elements whose end tags are implied, 13.2.6.3.
    Cursory,
    /// Those whose end tags are implied thoroughly, 13.2.6.3.
    Thorough,
    /// The targets that foster parenting, where it is on, moves a node away from, 13.2.6.1.
    FosterTargets,
    /// The MathML text integration points, 13.2.6.
    MathTextPoints,
    /// The SVG elements that are HTML integration points, 13.2.6.
    SvgPoints,
}

impl Set {
    ghost use Rattle.names.specs.Set.{names_of};

    /// Whether the set has the name in the namespace. No set has 0, a name of the host's or a number that is no name,
    /// and none has a name in a number that is no namespace.
    // A constant is laid down anew wherever it is used, so each set's words are used in its arm alone and lent.
    pub fn has(self, space: u16, name: u16) -> bool
        ensures { result ≡ is_in (names_of self) space name }
    {
        match self {
            Set::Formatting => in_words(&words::FORMATTING, space, name),
            Set::Special => in_words(&words::SPECIAL, space, name),
            Set::DefaultScope => in_words(&words::DEFAULT_SCOPE, space, name),
            Set::ListItemScope => in_words(&words::LIST_ITEM_SCOPE, space, name),
            Set::ButtonScope => in_words(&words::BUTTON_SCOPE, space, name),
            Set::TableScope => in_words(&words::TABLE_SCOPE, space, name),
            Set::Cursory => in_words(&words::CURSORY, space, name),
            Set::Thorough => in_words(&words::THOROUGH, space, name),
            Set::FosterTargets => in_words(&words::FOSTER_TARGETS, space, name),
            Set::MathTextPoints => in_words(&words::MATH_TEXT_POINTS, space, name),
            Set::SvgPoints => in_words(&words::SVG_POINTS, space, name),
        }
    }
}

/// Whether an element is an HTML integration point, 13.2.6: an SVG one of the set, or a MathML annotation-xml with the mark 1,
/// which says that its encoding makes it such a point.
#[tactic(auto, unfolding(crate::specs::Sets::is_html_point))]
pub fn is_html_integration_point(space: u16, name: u16, mark: u16) -> bool
    ensures { result ≡ is_html_point space name mark }
{
    Set::SvgPoints.has(space, name)
        || (space == Namespace::MATHML && name == tag::ANNOTATION_XML && mark == 1)
}
