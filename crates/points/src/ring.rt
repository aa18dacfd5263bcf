// A ring's points: read from the sheet, and those marked with which a coedge begins; moved in place (rules 1 and 2),
// normalised in place or into another list (rule 5).
ghost use Rattle.std.specs.Prelude.{◌≡◌, map, length};
ghost use Rattle.sheet.specs.Content.{ring_points};
ghost use Rattle.answers.specs.Lists.{over};
ghost use Rattle.points.specs.Joins.{first_only, opens};
ghost use Rattle.points.specs.Unroll.{near, wrapped, moved, moved_ring};
ghost use Rattle.points.specs.Normalise.{normal};

use crate::phase::Phase;
use crate::turns::turns;
use leaves::constants::TAU;
use sheet::{Coedge, Kind, Point, Ring};

// The points of a coedge. (An index in a zip's place: of what is written through a zip, no clause of it speaks.)
fn read_coedge(coedge: Coedge, points: &mut [Point])
    requires { length points.old ≡ length coedge.points }
    ensures { points.new ≡ coedge.entry.points }
{
    for (k, p) in coedge.points().enumerate() {
        points[k] = p;
    }
}

// The points of a ring over the front of `points`, whose tail keeps its contents; a list that is too short for them
// stays as it is.
pub fn read(ring: &Ring, points: &mut [Point])
    ensures { points.new ≡ over (ring_points ring.now) points.old }
{
    if points.len() < ring.point_count() {
        return;
    }
    let mut from = 0;
    for coedge in ring.coedges() {
        let to = from + coedge.point_count();
        read_coedge(coedge, &mut points[from..to]);
        from = to;
    }
}

// The first of a coedge's points is marked, and no other.
fn mark_coedge(marks: &mut [bool])
    ensures { marks.new ≡ first_only (length marks.old) }
{
    for (k, mark) in marks.iter_mut().enumerate() {
        *mark = k == 0;
    }
}

// For each point of a ring whether its coedge begins with it, over the front of `marks` as `read` writes the points.
pub fn mark(ring: &Ring, marks: &mut [bool])
    ensures { marks.new ≡ over (opens ring.now) marks.old }
{
    if marks.len() < ring.point_count() {
        return;
    }
    let mut from = 0;
    for coedge in ring.coedges() {
        let to = from + coedge.point_count();
        mark_coedge(&mut marks[from..to]);
        from = to;
    }
}

// Rule 1: v is wrapped in phase 1 only.
#[tactic(auto, unfolding(crate::specs::Unroll::wrapped))]
fn wrapped(phase: Phase, p: Point) -> Point
    ensures { result ≡ wrapped phase p }
{
    Point {
        u: p.u,
        v: if phase.is_second() {
            leaves::wrap(p.v)
        } else {
            p.v
        },
    }
}

// x moved by whole turns to be near the previous one.
#[tactic(auto, unfolding(crate::specs::Unroll::near))]
fn near_previous(previous: f64, x: f64) -> f64
    ensures { result ≡ near previous x }
{
    x + turns(previous - x, TAU)
}

// Rule 2: u moves for kinds 1 to 4, v for kind 4.
#[tactic(auto, unfolding(crate::specs::Unroll::moved))]
fn moved(kind: Kind, previous: Point, p: Point) -> Point
    ensures { result ≡ moved kind previous p }
{
    Point {
        u: if kind.turns() {
            near_previous(previous.u, p.u)
        } else {
            p.u
        },
        v: if kind.is_torus() {
            near_previous(previous.v, p.v)
        } else {
            p.v
        },
    }
}

// Rules 1 and 2, in place: every point wrapped for the phase, and every point after the first moved by
// whole turns to be near the moved point before it.
pub fn unroll(kind: Kind, phase: Phase, points: &mut [Point])
    ensures { points.new ≡ moved_ring kind phase points.old }
{
    let Some((first, rest)) = points.split_first_mut() else {
        return;
    };
    *first = wrapped(phase, *first);
    let mut previous = *first;
    for p in rest.iter_mut() {
        previous = moved(kind, previous, wrapped(phase, *p));
        *p = previous;
    }
}

// Rule 5: (coordinate - least) / scale, two points of the chart. (A frame holds both, in a crate above.)
#[tactic(auto, unfolding(crate::specs::Normalise::normal))]
fn normal(least: Point, scale: Point, p: Point) -> Point
    ensures { result ≡ normal least.u least.v scale.u scale.v p }
{
    Point {
        u: (p.u - least.u) / scale.u,
        v: (p.v - least.v) / scale.v,
    }
}

// Rule 5, in place.
pub fn normalise(least: Point, scale: Point, points: &mut [Point])
    ensures { points.new ≡ map (normal least.u least.v scale.u scale.v) points.old }
{
    for p in points.iter_mut() {
        *p = normal(least, scale, *p);
    }
}

// Rule 5 of each point, over the front of `out`, whose tail keeps its contents; a list that is too short for them stays
// as it is. It stands beside `normalise`, which changes its own list: no one borrow is both. (An index in a zip's
// place: of what is written through a zip, no clause of it speaks.)
pub fn normalise_into(least: Point, scale: Point, points: &[Point], out: &mut [Point])
    ensures { out.new ≡ over (map (normal least.u least.v scale.u scale.v) points.now) out.old }
{
    if out.len() < points.len() {
        return;
    }
    for (k, p) in points.iter().enumerate() {
        out[k] = normal(least, scale, *p);
    }
}
