#![tactic(auto)]

// Which answer the responder gives, and where the bytes of a message go.
