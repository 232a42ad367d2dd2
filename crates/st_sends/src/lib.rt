// What sends pass on: as many arguments as their selectors take, and a loop at most three. So there is room for them where a machine has room for the greatest of these.
#![tactic(auto)]

mod fitting;
mod sends;

pub use fitting::programs_know_their_selectors;
pub use sends::each_send_fits_its_selector;
