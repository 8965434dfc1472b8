#![tactic(auto)]
// The corners of document 01, as rows under one statement: definitions in specs/, computed in proofs/. There is no code.
