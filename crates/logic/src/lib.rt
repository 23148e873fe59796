#![tactic(auto)]

// The logic: what decks, runs, cones, pieces and verdicts are. There is no code here.
