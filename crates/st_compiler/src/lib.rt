// Trees to code: what the machine runs for each body of a program. It takes the image of a program, and gives each method, initializer and block its code by number.
#![tactic(auto)]

mod around;
mod class_names;
mod draft;
pub mod law;
mod loaded;
mod lookup;
mod names;
mod placing;
mod scope;
mod step;
mod units;
mod walk;

pub use loaded::{Loaded, compile};
pub use units::Initializer;
