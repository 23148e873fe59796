#![tactic(auto)]

// The card form: what a text of cards is, and what it says. There is no code here.
