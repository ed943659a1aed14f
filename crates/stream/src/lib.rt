// The recorded lists: the format of a stream, and how the next record is read from it.
#![tactic(auto)]

pub mod broken;
mod from_words;
mod inputs;
pub mod kind;
pub mod lent;
pub mod next_record;
mod reading;
mod record_effect;
pub mod records;
pub mod walk;
pub mod words;
