// A number in eight bytes, the highest first.
ghost use Rattle.std.specs.Prelude.{◌≡◌};
ghost use Rattle.buffer.specs.BigEndian.{number_bytes};
ghost use Rattle.buffer.specs.Page.{laid, behind};

use crate::page::put_bytes;
use std::num::f64_to_bits_with_nan;

// Puts the bits of x; of a NaN those of the quiet NaN.
#[tactic(auto, unfolding(crate::specs::BigEndian::number_bytes))]
pub fn put_number(x: f64, at: usize, page: &mut [u8]) -> usize
    ensures value { result ≡ behind at (number_bytes x) page.old }
    ensures page_after { page.new ≡ laid at (number_bytes x) page.old }
{
    put_bytes(&f64_to_bits_with_nan(x).to_be_bytes(), at, page)
}
