#![tactic(auto)]
// Every call keeps a sound state sound: theorems about the definitions, in specs/. There is no code.
