// Packing and unpacking a row.
#![tactic(auto)]

mod cursor;
mod measure;
pub mod pack;
mod reader;
pub mod unpack;
mod writer;
