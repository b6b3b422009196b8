#![tactic(auto)]

// What each answer of the responder leaves, and which calls are refused.
