// `inside` over the whole grid: what an edge does to a row is worked out once for the row's 31 points.
ghost use Rattle.std.specs.Prelude.{◌≡◌, false, not, ℕ, length, get_or};
ghost use Rattle.std.specs.Bool.{xor};
ghost use Rattle.answers.specs.Lists.{over};
ghost use Rattle.inside.specs.Inside.{flips, inside_of};
ghost use Rattle.inside.specs.Lines.{Parted, Holds, by_rows, flipped_by};

use crate::grid_lines::{Counted, lines_below};
use crate::point_in_ring::cut;
use points::{Segment, part};
use sheet::Point;

// The number of grid points. Cells and sums stand in arrays of so many: there is no heap.
pub const GRID_POINTS: usize = 961;

// Flips every cell.
#[tactic(auto, using(crate::proofs::Cells::cell_by_cell))]
fn flip(cells: &mut [bool])
    ensures { Holds false (length cells.old) cells.new (λ (m : ℕ). not (get_or cells.old m false)) }
{
    for cell in cells {
        *cell = !*cell;
    }
}

// What the edge from b to a flips in the rows after the first `low`, up to `high` of them. Rows go by their numbers, of
// which the definitions speak; the cells of a row stand side by side.
fn flip_rows(edge: Segment, low: u32, high: u32, cells: &mut [bool; GRID_POINTS])
    requires { Parted edge.a.v edge.b.v low high }
    ensures { Holds false 961 cells.new (λ (k : ℕ). xor (get_or cells.old k false) (flips (by_rows k) edge.a edge.b)) }
{
    let mut count = 0;
    for j in low..high {
        count = lines_below(count, cut(edge, part(j + 1)));
        let from = 31 * (j as usize);
        let to = from + count as usize;
        flip(&mut cells[from..to]);
    }
}

// What the edge from b to a flips: the rows between those below b and those below a, and no others.
fn flip_edge(a: Counted, b: Counted, cells: &mut [bool; GRID_POINTS])
    ensures { Holds false 961 cells.new (λ (k : ℕ). xor (get_or cells.old k false) (flips (by_rows k) a.point b.point)) }
{
    let edge = Segment {
        a: a.point,
        b: b.point,
    };
    if a.below < b.below {
        flip_rows(edge, a.below, b.below, cells);
    } else {
        flip_rows(edge, b.below, a.below, cells);
    }
}

// Flips each cell whose grid point is inside the ring, row after row.
#[tactic(auto, using(crate::proofs::Flips::unflipped, crate::proofs::Insides::along_ring))]
fn flip_cells(ring: &[Point], cells: &mut [bool; GRID_POINTS])
    ensures { Holds false 961 cells.new (λ (k : ℕ). xor (get_or cells.old k false) (inside_of ring.now (by_rows k))) }
{
    let Some(last) = ring.last() else {
        return;
    };
    let mut b = Counted::from_near(0, *last);
    for point in ring {
        let a = Counted::from_near(b.below, *point);
        flip_edge(a, b, cells);
        b = a;
    }
}

// Flips, of the first 961 cells, each whose grid point is inside the ring. The cells stand row after row; those
// behind them keep their contents, and a list of fewer stays as it is.
pub fn flip_ring(ring: &[Point], cells: &mut [bool])
    ensures { cells.new ≡ over (flipped_by ring.now cells.old) cells.old }
{
    if let Some(front) = cells.first_chunk_mut::<GRID_POINTS>() {
        flip_cells(ring, front);
    }
}
