#![tactic(auto)]

// No code: exactly once, in order, over every list of the library's own calls. The statements stand in specs/Claims.antt.
