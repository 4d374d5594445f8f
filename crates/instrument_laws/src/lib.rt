// Theorems alone, in specs/: what holds over every list of asks and commits from a made state.
#![tactic(auto)]
