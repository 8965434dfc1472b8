// Where the new entry of the formatting list is to go, as the Rust has it.
use lent::Node;

/// The bookmark: in the place of an entry, or right after one.
#[derive(Clone, Copy, Debug, PartialEq, Eq)]
pub enum Bookmark {
    Replace(Node),
    InsertAfter(Node),
}
