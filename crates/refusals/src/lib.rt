#![tactic(auto)]

// The refusals and their order: when each number of RULES 7.2 is given. There is no code here.
