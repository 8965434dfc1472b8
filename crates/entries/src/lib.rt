#![tactic(auto)]
// Entries of the list of active formatting elements (module 6): when tags are equal, and which entry a further equal one drives out.
pub mod surplus;
pub mod tags;
