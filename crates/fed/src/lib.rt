// A fed run, whatever the file and however it is cut: theorems, and what is known of a file that was
// fed.

#![tactic(auto)]

mod knowing;

pub use knowing::known;
