// A run fed in chunks, cut anywhere; what is kept between two calls lies in lent bytes.

#![tactic(auto)]

mod calls;
mod feeding;

pub use calls::{end, own_number, place, room, start, steps};
pub use feeding::feed;
