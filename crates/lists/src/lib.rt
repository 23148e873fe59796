#![tactic(auto)]

// Laws of lists that more than one crate needs. There is no code here.
