#![tactic(auto)]

// No code: in which order receive entries are used, over every list of calls. The statement stands in specs/Order.antt.
