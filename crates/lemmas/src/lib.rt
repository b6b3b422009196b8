#![tactic(auto)]

// No code: facts about tests, numbers in bytes and lists that the proofs of several crates cite.
