// The chart call.
ghost use Rattle.std.specs.Prelude.{◌≡◌, ◌≤◌};
ghost use Rattle.answers.specs.Answers.{paper, values_numbers};
ghost use Rattle.sheet.specs.Layout.{sheet_of};
ghost use Rattle.frame.specs.Framing.{point_count};
ghost use Rattle.chart.specs.Chart.{answered, charted, chart_of};
ghost use Rattle.chart.specs.Stages.{Passed};

use crate::grid_point::{Found, find};
use answers::{Answer, Refusal, Values};
use points::Phase;
use sheet::{MOST_POINTS, ORIGIN, SMALL_POINTS};

// The chosen grid point back in the chart, with its clearance and the count.
fn values(found: Found, phase: Phase) -> Values
    ensures { values_numbers result ≡ answered found.frame phase found.best }
{
    let p = found.point(phase);
    Values {
        x: p.u,
        y: p.v,
        z: 0.0,
        clearance: found.best.clearance,
        count: found.best.count,
    }
}

// The chart of a sheet that passes the checks down to 9, over lists of its own, of which the first has room for N
// points. A type cannot say that N is room enough, nor that it is at most the largest sheet's points, so each call at a
// size says it. (The picks begin with the same lines: a function cannot give back lists that lie in its own frame, and
// there is no heap for them. And which size it is, each asks itself: no function is handed a function of a const size.)
fn chart_within<const N: usize>(s: &[u8], phase: Phase, points: &mut [f64]) -> Answer
    requires { Passed s.now phase points.old × (point_count (sheet_of s.now) ≤ N) × (N ≤ 2176) }
    ensures { charted (paper result) points.new ≡ chart_of s.now phase points.old }
{
    let mut moved_room = [ORIGIN; N];
    let mut ends_room = [0usize; sheet::MOST_RINGS];
    let moved = &mut moved_room[..frame::point_count(s)];
    let ends = &mut ends_room[..sheet::ring_count(s)];
    let found = find(s, phase, moved, ends)?;
    points::write(phase, moved, points);
    Ok(values(found, phase))
}

// The chart of a sheet at a phase: the chosen grid point, and the moved points in the output list, which a
// refusal leaves as it is.
pub fn chart(s: &[u8], phase: Phase, points: &mut [f64]) -> Answer
    ensures { charted (paper result) points.new ≡ chart_of s.now phase points.old }
{
    frame::check(s, phase)?;
    let n = frame::point_count(s);
    if points.len() < 2 * n {
        return Err(Refusal::Room);
    }
    if n <= SMALL_POINTS {
        chart_within::<SMALL_POINTS>(s, phase, points)
    } else {
        chart_within::<MOST_POINTS>(s, phase, points)
    }
}
