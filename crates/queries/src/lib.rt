#![tactic(auto)]
// Questions on a state (module 8): the insertion mode it is in, whether a token is foreign to it, its body, and the tokenizer's
// state for its context. Each checks the state first, and changes nothing.
pub mod body_elem;
pub mod element;
pub mod foreign;
pub mod reset;
pub mod tokenizer;
