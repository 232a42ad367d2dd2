// How long codes are: what few parts in a program give its codes.
#![tactic(auto)]

mod short_codes;

pub use short_codes::small_programs_have_short_codes;
