#![tactic(auto)]
// The stack of open elements: scope tests, and the calls that pop from it (module 3).
pub mod close;
pub mod implied;
pub mod walk;
