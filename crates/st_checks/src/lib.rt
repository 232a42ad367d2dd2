// The static rules. A program goes in; out comes the same program as one that meets the rules, or the first break: the
// first unit that breaks a rule, and the first rule that it breaks. What the rules are stands in specs/.
#![tactic(auto)]

mod answer;
mod bodies;
mod broken;
mod built_in;
mod classes;
mod key;
pub mod law;
mod line;
mod lists;
mod meaning;
mod rules;
mod scopes;
mod table;
mod view;

pub use answer::{CheckAnswer, Checked, check};
