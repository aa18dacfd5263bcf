// The list that a call is lent.
ghost use Rattle.std.specs.Prelude.{◌≡◌, ◌%◌, ◌^◌, length, replicate, from_bits};
ghost use Rattle.std.specs.Float.{binary64};
ghost use Rattle.cases.specs.Places.{loaded, shown, wrong_in, weighted};

use crate::big_endian::u64_at;
use std::num::{f64_from_bits_with_nan, f64_to_bits_with_nan};

// What every place holds before a recorded call. Bits 40C81C8000000000.
pub const UNWRITTEN: f64 = 12345.0;

// Puts x in every place: std's `fill`, whose clauses are those of any type, said of f64.
pub fn fill(list: &mut [f64], x: f64)
    ensures { list.new ≡ replicate (length list.old) x }
{
    list.fill(x);
}

// Puts in every place the number that stands for it in `numbers`, eight bytes each.
#[tactic(auto, using(crate::proofs::Places::loaded_more), unfolding(crate::specs::Places::loaded))]
pub fn load(list: &mut [f64], numbers: &[u8])
    ensures { list.new ≡ loaded (length list.old) numbers.now }
{
    for (k, place) in list.iter_mut().enumerate() {
        *place = f64_from_bits_with_nan(u64_at(numbers, 8 * k));
    }
}

// Whether x is a number, and has these bits. (`==` would take -0 for +0.)
#[tactic(auto, unfolding(crate::specs::Places::shown))]
pub fn is_shown(x: f64, bits: u64) -> bool
    ensures { result ≡ shown x bits }
{
    !x.is_nan() && f64_to_bits_with_nan(x) == bits
}

// How many places of the list do not hold the number that stands for them in `numbers`, eight bytes each.
#[tactic(auto, unfolding(crate::specs::Places::wrong_in))]
pub fn wrong_places(list: &[f64], numbers: &[u8]) -> u64
    ensures { result ≡ wrong_in list.now numbers.now }
{
    list.iter()
        .enumerate()
        .filter(|(k, x)| !is_shown(**x, u64_at(numbers, 8 * *k)))
        .count() as u64
}

// The bits of each place k, counted from 0, times 2k + 1, added up modulo 2^64. The weights are odd, so that
// a change of one bit anywhere changes the sum.
#[tactic(auto, using(crate::proofs::Places::weigh_more), unfolding(crate::specs::Places::weighted))]
pub fn check_sum(list: &[f64]) -> u64
    ensures { result ≡ weighted 1 list.now % 2 ^ 64 }
{
    let mut total: u64 = 0;
    for (k, x) in list.iter().enumerate() {
        let weight = 2 * k as u64 + 1;
        total = total.wrapping_add(weight.wrapping_mul(f64_to_bits_with_nan(*x)));
    }
    total
}
