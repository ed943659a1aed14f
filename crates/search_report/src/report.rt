// What this crate has for others: the data of a search, whose methods make it and report it, and the line of a table. They write to standard
// output what a search does, in words for a person to read.

pub use crate::data::Data;
pub use crate::lines::table_line;
