#![tactic(auto)]
// What lies in lent memory is made here: nodes, text pieces and attribute pairs. Every function is total: none asks anything of the memory.
pub mod make;
