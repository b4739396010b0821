// The C surface (c/yesbrulka.h): exported functions that answer for any numbers and any lent
// memory, and return 0 or the number of the refusal. On a refusal nothing lent has changed.

#![tactic(auto)]

mod beside;
mod feeds;
mod files;
mod passes;
mod says;
mod steps;
