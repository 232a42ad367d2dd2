// Each store that a run comes to is sound: an Interval is measured, what grows is no literal and has room for its slots, and a Dictionary's slots come in pairs. So the tests that the machine makes before it calls the code of collections and loops never fail.
#![tactic(auto)]

mod requests;
mod rows;
mod stores;

pub use requests::a_sound_store_meets_each_request;
pub use rows::what_is_found_fits_its_receiver;
pub use stores::each_store_is_sound;
