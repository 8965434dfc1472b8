#![tactic(auto)]
// The adoption agency's steps 4.9 to 4.19 (module 7): what is done for a formatting element that has a furthest block.
pub mod bookmark;
pub mod finish;
pub mod walk;
