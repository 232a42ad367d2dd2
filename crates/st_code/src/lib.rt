// The code that the machine runs: constants, variables, instructions, and the code of one body. What a body's code is stands in specs/.
#![tactic(auto)]

mod instruction;

pub use instruction::{Code, CodeKind, Constant, Instruction, Variable};
