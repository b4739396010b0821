// The value bytes of a field at any place of any bytes, as they lie there, and a reader that walks
// from field to field.

#![tactic(auto)]

mod parts;
mod reader;

pub use reader::{Reader, past, place_past, value, value_at};
