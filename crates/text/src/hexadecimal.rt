// A u64 as sixteen capital hexadecimal digits.
ghost use Rattle.std.specs.Prelude.{◌≡◌, ◌<◌};
ghost use Rattle.std.specs.Float.{binary64};
ghost use Rattle.std.specs.Float.Ieee.{to_bits};
ghost use Rattle.buffer.specs.Page.{laid, behind};
ghost use Rattle.text.specs.Digits.{hexadecimal, digits};
ghost use Rattle.text.specs.Digits.{digit as digit_of};

use buffer::put_bytes;
use std::num::f64_to_bits_with_nan;

// The ASCII code of a digit. (The kit's `{:X}` writes digits too, but promises nothing of them.)
#[tactic(auto, unfolding(crate::specs::Digits::digit))]
fn digit(d: u8) -> u8
    requires { d < 16 }
    ensures { result ≡ digit_of d }
{
    if d < 10 { b'0' + d } else { b'A' + (d - 10) }
}

// From the last digit to the first, by index: over `iter_mut().rev()` the loop's proof would need an answer, and so
// it needs none.
#[tactic(auto, using(crate::proofs::Fronts::digit_steps))]
pub(crate) fn hex(n: u64) -> [u8; 16]
    ensures { result ≡ hexadecimal n }
{
    let mut text = [0u8; 16];
    let mut rest = n;
    for i in (0..16).rev() {
        text[i] = digit((rest % 16) as u8);
        rest /= 16;
    }
    text
}

// Puts n's sixteen digits.
pub fn put_hex(n: u64, at: usize, page: &mut [u8]) -> usize
    ensures value { result ≡ behind at (hexadecimal n) page.old }
    ensures page_after { page.new ≡ laid at (hexadecimal n) page.old }
{
    put_bytes(&hex(n), at, page)
}

// The bits of x; of a NaN those of the quiet NaN. It gives std's function a plain name: std's plain one, `to_bits`,
// promises nothing of a NaN.
pub fn bits_of(x: f64) -> u64
    ensures { result ≡ to_bits binary64 x }
{
    f64_to_bits_with_nan(x)
}
