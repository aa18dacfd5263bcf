// Rule 7 over all rings: whether a grid point's crossings cover it.
ghost use Rattle.std.specs.Prelude.{◌≡◌, false, cond, ℕ, ◌+◌, ◌<◌, pos, get_or};
ghost use Rattle.inside.specs.Lines.{Holds, in_rows};
ghost use Rattle.coverage.specs.Coverage.{oddℤ, on_side, covered_by};

use inside::GRID_POINTS;
use sheet::Sense;

// Whether the crossings are odd, either sign.
#[tactic(auto, using(std::proofs::lemmas::Int::ints, crate::proofs::Sides::odd))]
fn is_odd(n: i64) -> bool
    ensures { result ≡ oddℤ n }
{
    n % 2 != 0
}

// On a band: positive for sense 1, negative for sense 2, nothing for sense 0.
#[tactic(auto, using(crate::proofs::Sides::sides), unfolding(crate::specs::Coverage::on_side))]
fn on_side(sense: Sense, n: i64) -> bool
    ensures { result ≡ on_side sense n }
{
    sense.is_forward() && 0 < n || sense.is_reversed() && n < 0
}

// Whether a grid point with these crossings is covered. (Band and sense go side by side, as in `covered_by` of the
// definitions: the one is the frame's, the other the sheet's.)
#[tactic(auto, using(std::proofs::lemmas::Int::ints), unfolding(crate::specs::Coverage::covered_by))]
fn is_covered(band: bool, sense: Sense, n: i64) -> bool
    ensures { result ≡ covered_by band sense n }
{
    is_odd(n) && (!band || on_side(sense, n))
}

// Marks each grid point that its sum of windings covers. Both lists stand in the grid's order. (An index in a zip's
// place: of what is written through a zip, no clause of it speaks.)
#[tactic(auto, using(std::proofs::lemmas::Int::ints, inside::proofs::Cells::cell_by_cell))]
pub(crate) fn mark_windings(
    band: bool,
    sense: Sense,
    sums: &[i64; GRID_POINTS],
    covered: &mut [bool; GRID_POINTS],
)
    ensures { Holds false 961 covered.new (λ (k : ℕ). covered_by band sense (get_or sums.now k (pos 0))) }
{
    for (k, mark) in covered.iter_mut().enumerate() {
        *mark = is_covered(band, sense, sums[k]);
    }
}

// The place, where a row's points stand side by side, of the grid point after the one in place `at`: a
// row further, and after the last row in the first one again, a point further. Each place worked out by divisions,
// as `in_rows` has it, makes a small plane's grid a quarter slower.
fn next_row(at: usize) -> usize
    requires { at < 961 }
    ensures { (k : ℕ) → k < 961 → at ≡ in_rows k → result ≡ in_rows (k + 1) }
{
    if at < 930 { at + 31 } else { at - 929 }
}

// One of two values for each cell, as it says yes or no. The cells stand row after row, the values in the grid's order.
#[tactic(auto, using(inside::proofs::Cells::cell_by_cell))]
pub(crate) fn from_rows<T: Copy>(
    cells: &[bool; GRID_POINTS],
    yes: T,
    no: T,
    values: &mut [T; GRID_POINTS],
)
    ensures { Holds no 961 values.new (λ (k : ℕ). cond (get_or cells.now (in_rows k) false) yes no) }
{
    let mut at = 0;
    for value in values.iter_mut() {
        *value = if cells[at] { yes } else { no };
        at = next_row(at);
    }
}

// Marks each grid point that is covered by 1 crossing where its cell says yes, by none, which cover nothing, where it
// says no. The cells stand row after row, the marks in the grid's order.
#[tactic(auto, using(crate::proofs::Parity::one_or_none))]
pub(crate) fn mark_flips(
    band: bool,
    sense: Sense,
    cells: &[bool; GRID_POINTS],
    covered: &mut [bool; GRID_POINTS],
)
    ensures { Holds false 961 covered.new (λ (k : ℕ). covered_by band sense (cond (get_or cells.now (in_rows k) false) (pos 1) (pos 0))) }
{
    from_rows(cells, is_covered(band, sense, 1), false, covered);
}
