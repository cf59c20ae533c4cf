//! The stored commits in the order of their ends, with a place for each end that was drawn, and
//! the records of the next group of them.
#![tactic(auto)]

mod commit_record;
mod effect;
mod gathering;
mod laws;
mod next_records;
mod spare_lists;
mod tale;
mod tale_entry;
mod tale_place;
mod walk;
mod walk_step;
mod writes;

pub use commit_record::record_of;
pub use laws::{
    laws_of_kept_places, laws_of_places_beside, laws_of_reader_calls, laws_of_reading_places,
    laws_of_whole_tale,
};
pub use next_records::NextRecords;
pub use tale::Tale;
pub use tale_entry::TaleEntry;
pub use tale_place::TalePlace;
