// Names as numbers: each text is numbered from 0 by the place of its first insertion.
#![tactic(auto)]

mod names;

pub use names::Names;
