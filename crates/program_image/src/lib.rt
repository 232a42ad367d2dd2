// A program with its names, classes, variables and methods by number, and lookup among them. It takes a definition whole; every class, selector and variable of it gets the number that the run uses.
#![tactic(auto)]

mod class;
mod class_list;
mod declarations;
mod image;
pub mod law;
mod methods;
mod spelled;
mod table;

pub use class::{Class, SharedVariable};
pub use image::{Image, build};
pub use spelled::spell_body;
pub use table::{Found, Side};
