// A u32 in decimal digits, with no zero in front; 0 is the one digit 0.
ghost use Rattle.std.specs.Prelude.{◌≡◌};
ghost use Rattle.buffer.specs.Page.{laid, behind};
ghost use Rattle.text.specs.Digits.{decimal};

use buffer::put_bytes;

// Puts n's digits.
#[tactic(auto, using(crate::proofs::Tens::decimal_is))]
pub fn put_decimal(n: u32, at: usize, page: &mut [u8]) -> usize
    ensures value { result ≡ behind at (decimal n) page.old }
    ensures page_after { page.new ≡ laid at (decimal n) page.old }
{
    let mut digits = itoa::Buffer::new();
    put_bytes(digits.format(n).as_bytes(), at, page)
}
