// Small calls above the readers, a module for each: reading's own functions do the work, and each call shows another
// side of it. `odd` is what they ask of growths.
#![tactic(auto)]

pub mod compare;
pub mod front;
mod odd;
pub mod why;
