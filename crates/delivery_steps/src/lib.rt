#![tactic(auto)]

// No code: the steps of the proof of demand 3. They rest on no law of the responder, only on its definitions.
