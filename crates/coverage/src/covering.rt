// Rule 7 over all rings, in one pass over one grid.
ghost use Rattle.std.specs.Prelude.{◌≡◌, Bool, true, false, ℕ, ◌≤◌, ℤ, pos, ◌+ℤ◌, length, take, replicate};
ghost use Rattle.std.specs.Bool.{xor};
ghost use mathlib.Core.List.{List, foldl};
ghost use Rattle.sheet.specs.Content.{Point};
ghost use Rattle.answers.specs.Lists.{over};
ghost use Rattle.points.specs.Grid.{grid_of, grid_point};
ghost use Rattle.inside.specs.Inside.{inside_of};
ghost use Rattle.inside.specs.Lines.{Holds, by_columns, by_rows};
ghost use Rattle.frame.specs.Parts.{rings_from, rings_in};
ghost use Rattle.coverage.specs.Coverage.{winding_of, covered as covered_of};

use crate::marks::{mark_flips, mark_windings};
use crate::winding::add_ring;
use frame::{Frame, Rings};
use inside::GRID_POINTS;
use sheet::{MOST_POINTS, Sense};

// At most so many rings are looked at, more than a sheet can have, and as many points as the largest sheet has. So no
// sum of windings overflows.
const RINGS_LOOKED_AT: usize = 256;

// The rings that are looked at.
#[tactic(auto, using(std::proofs::lemmas::List::take_min))]
fn looked_at(rings: Rings) -> Rings
    ensures { (result.points.now ≡ take 2176 rings.entry.points.now) × (result.ends.now ≡ take 256 rings.entry.ends.now) }
{
    let points = MOST_POINTS.min(rings.points.len());
    let ends = RINGS_LOOKED_AT.min(rings.ends.len());
    Rings {
        points: &rings.points[..points],
        ends: &rings.ends[..ends],
    }
}

// Adds up the windings of all rings at every grid point, over cells of zeros in the grid's order.
fn add_rings(period: f64, rings: Rings, cells: &mut [i64; GRID_POINTS])
    requires { (length rings.points.now ≤ 2176) × (length rings.ends.now ≤ 256) × (cells.old ≡ replicate 961 (pos 0)) }
    ensures { Holds (pos 0) 961 cells.new (λ (k : ℕ). foldl (λ (n : ℤ) (ring : List Point). n +ℤ winding_of period (by_columns k) ring) (pos 0) (rings_in rings.entry)) }
{
    for ring in rings {
        add_ring(period, ring, cells);
    }
}

// Flips each grid point once for each ring that it is inside of, over cells that say no, row after row.
fn flip_rings(rings: Rings, cells: &mut [bool; GRID_POINTS])
    requires { cells.old ≡ replicate 961 false }
    ensures { Holds false 961 cells.new (λ (k : ℕ). foldl (λ (t : Bool) (ring : List Point). xor t (inside_of ring (by_rows k))) false (rings_in rings.entry)) }
{
    for ring in rings {
        inside::flip_ring(ring, cells);
    }
}

// Marks the covered grid points of a periodic chart, by the sum of the windings. Frame, sense and rings go side by
// side, here and where they come from, as the definitions have them: a frame is worked out of rings, the sense is the
// sheet's.
fn cover_by_winding(f: Frame, sense: Sense, rings: Rings, covered: &mut [bool; GRID_POINTS])
    requires { (f.periodic ≡ true) × (length rings.points.now ≤ 2176) × (length rings.ends.now ≤ 256) }
    ensures { covered.new ≡ grid_of (λ (i j : ℕ). covered_of f sense (rings_in rings.entry) (grid_point i j)) }
{
    let mut sums = [0; GRID_POINTS];
    add_rings(f.period, rings, &mut sums);
    mark_windings(f.band, sense, &sums, covered);
}

// Those of any other chart, by whether the number of rings that a grid point is inside of is odd: no more of it is
// asked, since an odd number of rings is above 0.
fn cover_by_inside(f: Frame, sense: Sense, rings: Rings, covered: &mut [bool; GRID_POINTS])
    requires { f.periodic ≡ false }
    ensures { covered.new ≡ grid_of (λ (i j : ℕ). covered_of f sense (rings_in rings.entry) (grid_point i j)) }
{
    let mut cells = [false; GRID_POINTS];
    flip_rings(rings, &mut cells);
    mark_flips(f.band, sense, &cells, covered);
}

// Whether each grid point is covered, over the front of `covered`, whose tail keeps its contents; a list that is too
// short for the grid stays as it is.
pub fn cover(f: Frame, sense: Sense, rings: Rings, covered: &mut [bool])
    ensures { covered.new ≡ over (grid_of (λ (i j : ℕ). covered_of f sense (rings_from 0 (take 256 rings.entry.ends.now) (take 2176 rings.entry.points.now)) (grid_point i j))) covered.old }
{
    let Some(front) = covered.first_chunk_mut::<GRID_POINTS>() else {
        return;
    };
    let rings = looked_at(rings);
    let periodic = f.periodic;
    if periodic {
        cover_by_winding(f, sense, rings, front);
    } else {
        cover_by_inside(f, sense, rings, front);
    }
}
