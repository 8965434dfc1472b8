#![tactic(auto)]
// The dump shows the tree: definitions of the lines in specs/, theorems about them in proofs/. There is no code.
