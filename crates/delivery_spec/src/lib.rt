#![tactic(auto)]

// No code. Exactly once, in order: what is claimed (Demand), and laws that what it asks is no more than its words.
