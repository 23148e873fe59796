#![tactic(auto)]

// Frames: decks and claims, read and written.
