#![tactic(auto)]

// The packets that the responder sends, read back; a READ that is drained.
