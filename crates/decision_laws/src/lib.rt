#![tactic(auto)]

// What forms a decision of the responder can take; laws that others rest on.
