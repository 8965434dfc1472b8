// Elements by namespace and name.
ghost use Rattle.std.specs.Prelude.{◌≡◌};
ghost use Rattle.standard.specs.Html.{is_html, is_foster_target};

use lent::{Kind, Node};
use names::Namespace;
use names::sets::Set;

/// Whether n is an HTML element with this name.
#[tactic(auto, unfolding(standard::specs::Html::is_html))]
pub fn is_html(nodes: &[u8], n: Node, name: u16) -> bool
    ensures { result ≡ is_html nodes.now n.0 name }
{
    lent::get(nodes, n, Node::KIND) == Kind::ELEMENT
        && lent::get(nodes, n, Node::SPACE) == Namespace::HTML
        && lent::get(nodes, n, Node::NAME) == name
}

/// Whether n is an HTML table, tbody, tfoot, thead or tr: a target that foster parenting moves a node away from.
#[tactic(auto, unfolding(standard::specs::Html::is_foster_target))]
pub fn is_foster_target(nodes: &[u8], n: Node) -> bool
    ensures { result ≡ is_foster_target nodes.now n.0 }
{
    lent::get(nodes, n, Node::KIND) == Kind::ELEMENT
        && Set::FosterTargets.has(
            lent::get(nodes, n, Node::SPACE),
            lent::get(nodes, n, Node::NAME),
        )
}
