#![tactic(auto)]
// The demands of document 01 over every public call, the questions of module 8 included: definitions in specs/, theorems in
// proofs/. There is no code.
