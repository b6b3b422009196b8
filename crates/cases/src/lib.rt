#![tactic(auto)]

// No code: the rules' cases W1 to W12, computed from the definitions. The statement stands in specs/Cases.antt.
