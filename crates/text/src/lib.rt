// What programs print, written into a page that the caller lends. A writer is told the place from which it
// writes and answers the place behind what it wrote. Where the page has no room for the whole, it writes
// nothing and answers the place that it was told. No writer asks anything of its caller.
#![tactic(auto)]

mod decimal;
mod hexadecimal;
mod line;

pub use decimal::put_decimal;
pub use hexadecimal::{bits_of, put_hex};
pub use line::{point_line, put_point, refusal_line};
