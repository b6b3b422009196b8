#![tactic(auto)]

// No code: what becomes of a message on the unreliable connection. The statements stand in specs/Message.antt.
