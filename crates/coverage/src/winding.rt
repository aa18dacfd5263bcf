// Rule 7 on a periodic chart, on one ring, over the whole grid: what a segment does to a column is worked out once
// for the column's 31 points.
ghost use Rattle.std.specs.Prelude.{◌≡◌, cond, ℕ, ◌+◌, ◌^◌, ◌≤◌, pos, negsuc, nat_abs, ◌+ℤ◌, length, get_or};
ghost use Rattle.std.specs.Float.Ieee.{lt};
ghost use Rattle.points.specs.Grid.{part as part_of};
ghost use Rattle.inside.specs.Lines.{Holds, by_columns};
ghost use Rattle.coverage.specs.Coverage.{step, step_of, winding_of};
ghost use Rattle.coverage.specs.Lines.{Within};

use crate::column_turns::ColumnTurns;
use inside::{GRID_POINTS, just_one_above};
use points::{Segment, part, segments};
use sheet::Point;

// 1 where the segment from a to b goes up in u, else -1.
fn direction(a: f64, b: f64) -> i64
    ensures { result ≡ cond (lt a b) (pos 1) (negsuc 0) }
{
    if a < b { 1 } else { -1 }
}

// Adds `by` to the cells of a column that are above the threshold.
#[tactic(auto, using(std::proofs::lemmas::Int::ints, inside::proofs::Cells::cell_by_cell))]
fn add_above(threshold: f64, by: i64, column: &mut [i64])
    requires { (length column.old ≡ 31) × (nat_abs by ≤ 1) × Within (2 ^ 62) column.old }
    ensures { Holds (pos 0) 31 column.new (λ (m : ℕ). get_or column.old m (pos 0) +ℤ cond (lt threshold (part_of (m + 1))) by (pos 0)) }
{
    for (m, cell) in column.iter_mut().enumerate() {
        if threshold < part(m as u32 + 1) {
            *cell += by;
        }
    }
}

// Adds to a column's cells the crossings of a segment, whose b has gained its turns, at the copy w of the
// column's u.
#[tactic(auto, using(std::proofs::lemmas::Int::ints), unfolding(crate::specs::Coverage::step))]
fn add_column(s: Segment, w: f64, column: &mut [i64])
    requires { (length column.old ≡ 31) × Within (2 ^ 62) column.old }
    ensures { Holds (pos 0) 31 column.new (λ (m : ℕ). get_or column.old m (pos 0) +ℤ step (part_of (m + 1)) s.a.u s.a.v s.b.u s.b.v w) }
{
    let a = s.a;
    let b = s.b;
    if just_one_above(a.u, b.u, w) {
        let threshold = a.v + (b.v - a.v) * (w - a.u) / (b.u - a.u);
        add_above(threshold, direction(a.u, b.u), column);
    }
}

// Adds the crossings of a segment, column by column. Columns go by their numbers, of which the definitions speak; the
// cells stand in the grid's order, those of a column side by side.
fn add_segment(period: f64, s: Segment, cells: &mut [i64; GRID_POINTS])
    requires { Within (2 ^ 62) cells.old }
    ensures { Holds (pos 0) 961 cells.new (λ (k : ℕ). get_or cells.old k (pos 0) +ℤ step_of period (by_columns k) s) }
{
    let moved = s.gained(period);
    let mut turns = ColumnTurns::new(period, moved.middle());
    for i in 0..31u32 {
        turns.bring_to(i + 1);
        let from = 31 * (i as usize);
        let to = from + 31;
        add_column(moved, part(i + 1) + turns.by, &mut cells[from..to]);
    }
}

// Adds the winding of a ring to every cell.
#[tactic(auto, using(crate::proofs::Windings::ring_sums))]
pub(crate) fn add_ring(period: f64, ring: &[Point], cells: &mut [i64; GRID_POINTS])
    requires { Within (2 ^ 61) cells.old }
    ensures { Holds (pos 0) 961 cells.new (λ (k : ℕ). get_or cells.old k (pos 0) +ℤ winding_of period (by_columns k) ring.now) }
{
    for s in segments(ring) {
        add_segment(period, s, cells);
    }
}
