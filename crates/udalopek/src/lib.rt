// The library for other languages: numbers pass as themselves, a slice as a pointer and a length, a table as a pointer.
// Every function answers a number of the rules, and reports the rest through what it is lent. Parameters stay apart, as C
// passes them.
#![tactic(auto)]

mod headers;
mod host;
mod left;
mod messages;
mod packets;
mod words;
