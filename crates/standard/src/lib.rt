#![tactic(auto)]
// The types that the definitions of the calls speak of. The definitions stand in specs/, one file for each part of the standard.
use lent::Node;

// Where a node is put: inside a node, after its last child; or right before a node.
#[derive(Clone, Copy)]
pub enum Place {
    End(Node),
    Before(Node),
}
