#![tactic(auto)]

// The calls that other languages make, on lent words: definitions and laws. The code is the crate udalopek.
