// The laws of values, over a whole run: each built-in object holds what its messages put there, and
// the numbers of objects, classes, symbols and selectors name something.
#![tactic(auto)]

mod numbers;
mod objects;
mod symbols;

pub use numbers::each_number_is_named;
pub use objects::each_object_is_built;
pub use symbols::each_symbol_is_named;
