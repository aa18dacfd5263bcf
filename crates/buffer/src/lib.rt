// Bytes laid into a page that the caller lends: texts, and numbers as a sheet has them. A writer is told the place from
// which it writes and answers the place behind what it wrote. Where the page has no room for the whole, it writes
// nothing and answers the place that it was told. No writer asks anything of its caller.
#![tactic(auto)]

mod number;
mod page;

pub use number::put_number;
pub use page::put_bytes;
