// What the grammar gives: programs that are read have what the laws over runs ask for.
#![tactic(auto)]

mod selectors;

pub use selectors::read_units_fit_their_selectors;
