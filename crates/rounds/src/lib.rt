#![tactic(auto)]
// One round of the adoption agency (module 7; 13.2.6.4.7, step 4): what it looks for, and what it does with it.
pub mod search;
pub mod turns;
