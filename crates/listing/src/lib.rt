// The listing of document 01: a line for each entry, as bytes in a lent buffer.
#![tactic(auto)]

mod lines;
mod shown;
mod text;

pub use lines::{line, refusal};
