#![tactic(auto)]

// A pair and a header as words of 64 bits, the form in which other languages lend and get them: definitions and laws.
// The code is the crate abi.
