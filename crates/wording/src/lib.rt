// What `explain` says of an entry, in words (docs/EXPLAIN.md), and the chart that `rules` prints, laid into a lent buffer.
#![tactic(auto)]

mod answers;
mod doing;
mod entries;
mod page;
mod requests;
mod standing;
mod wall;

pub use answers::{malformed, refusal};
pub use entries::entry;
pub use page::Page;
pub use wall::rules;
