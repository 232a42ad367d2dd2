// What built-in messages of characters, strings and collections do at once, over any heap. What each message does stands in specs/, and so does what loops visit.
#![tactic(auto)]

mod answer;
mod arguments;
mod characters;
mod classes;
mod dispatch;
mod elements;
mod growth;
mod intervals;
mod items;
mod kinds;
mod letters;
mod makers;
mod making;
mod message;
mod ordered;
mod pairs;
mod sequences;
mod strings;
mod texts;
mod writes;

pub use answer::Built;
pub use dispatch::{collection_message, is_receiver};
pub use elements::is_measured;
pub use message::{
    CollectionMessage, OfCharacter, OfMaking, OfOrdered, OfPair, OfSequence, OfString,
};
pub use ordered::is_ordered;
