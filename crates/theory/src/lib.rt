#![tactic(auto)]
// Order, children and counting: pure definitions and their laws, in specs/. There is no code.
