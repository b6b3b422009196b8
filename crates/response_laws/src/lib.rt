#![tactic(auto)]

// The responses of a READ as packets.
