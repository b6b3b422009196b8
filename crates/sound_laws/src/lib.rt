#![tactic(auto)]

// That the calls of the responder keep a sound pair sound.
