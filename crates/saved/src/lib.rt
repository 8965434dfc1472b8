#![tactic(auto)]
// Saved states: the record and the used part of each lent region as 16-bit words, and back as hexadecimal text (docs/LAYOUT.md).
// For tests: these functions are proved to be safe and to end, and the tests compare what they write. `input` reads what the programs are given.
pub mod input;
pub mod load;
pub mod region;
pub mod save;
