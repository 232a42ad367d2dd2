// A smaller program that runs alike: a definition goes in, the same without the methods that its run can't reach by
// name comes out. What is promised: exactly the units that are kept.
#![tactic(auto)]

mod methods;
mod needed;
mod shaken;

pub use shaken::shake;
