// Laws of the node table; no code.
#![tactic(auto)]
