// Definitions and theorems; no code.
#![tactic(auto)]
