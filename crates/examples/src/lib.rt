// The examples of document 01 as one theorem; no code.
#![tactic(auto)]
