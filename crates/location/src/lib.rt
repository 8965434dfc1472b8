#![tactic(auto)]
// The place for an insertion (module 4), on a state that has been checked, and the tests on elements that it and the algorithms make.
pub mod html;
pub mod place;
