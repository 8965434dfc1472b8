#![tactic(auto)]
// The tree in lent memory: nodes are linked, unlinked and moved. Every function is total: none asks anything of the memory.
pub mod links;
