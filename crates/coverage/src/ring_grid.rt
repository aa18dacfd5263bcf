// Rule 7 on one ring, over the whole grid: the ring's crossings at every grid point, whatever the chart's kind.
ghost use Rattle.std.specs.Prelude.{◌≡◌, cond, ℕ, pos, length, replicate};
ghost use Rattle.answers.specs.Lists.{over};
ghost use Rattle.points.specs.Grid.{grid_of, grid_point};
ghost use Rattle.inside.specs.Inside.{inside_of};
ghost use Rattle.coverage.specs.Coverage.{winding_of, crossing};

use crate::marks::from_rows;
use crate::winding::add_ring;
use inside::GRID_POINTS;
use sheet::Point;

// Zeros in every place: std's `fill`, whose clauses are those of any type, said of i64.
pub fn clear(numbers: &mut [i64])
    ensures { numbers.new ≡ replicate (length numbers.old) (pos 0) }
{
    numbers.fill(0);
}

// The crossings of a ring on a chart that is not periodic: 1 inside and 0 outside.
fn inside_grid(ring: &[Point], crossings: &mut [i64; GRID_POINTS])
    ensures { crossings.new ≡ grid_of (λ (i j : ℕ). cond (inside_of ring.now (grid_point i j)) (pos 1) (pos 0)) }
{
    let mut cells = [false; GRID_POINTS];
    inside::flip_ring(ring, &mut cells);
    from_rows(&cells, 1, 0, crossings);
}

// The crossings of a ring on a periodic chart: its winding.
fn winding_grid(period: f64, ring: &[Point], crossings: &mut [i64; GRID_POINTS])
    ensures { crossings.new ≡ grid_of (λ (i j : ℕ). winding_of period (grid_point i j) ring.now) }
{
    clear(crossings);
    add_ring(period, ring, crossings);
}

// The ring's crossings at every grid point, in the grid's order, over the front of `crossings`, whose tail keeps its
// contents; a list that is too short for them stays as it is. The period stands beside `periodic` and is no option: a
// frame has one on every chart, and `crossing` of the definitions takes both.
pub fn crossing_grid(periodic: bool, period: f64, ring: &[Point], crossings: &mut [i64])
    ensures { crossings.new ≡ over (grid_of (λ (i j : ℕ). crossing periodic period (grid_point i j) ring.now)) crossings.old }
{
    let Some(front) = crossings.first_chunk_mut::<GRID_POINTS>() else {
        return;
    };
    if periodic {
        winding_grid(period, ring, front);
    } else {
        inside_grid(ring, front);
    }
}
