// Checks 11 to 14 and rules 1 to 9: the grid point of a sheet, for the chart and the picks.
ghost use Rattle.std.specs.Prelude.{◌≡◌, length};
ghost use Rattle.answers.specs.Outcome.{numbered};
ghost use Rattle.sheet.specs.Layout.{sheet_of};
ghost use Rattle.frame.specs.Seam.{fitting, laid_points, laid_ends};
ghost use Rattle.chart.specs.Chart.{answered};
ghost use Rattle.chart.specs.Found.{found_of};

use crate::choice::{SheetRings, chosen};
use answers::Refusal;
use frame::{Frame, Rings};
use leaves::constants::CLEARANCE_LIMIT;
use points::Phase;
use search::Candidate;
use sheet::Point;

// The frame of a sheet and its chosen grid point.
#[derive(Clone, Copy)]
pub struct Found {
    pub frame: Frame,
    pub best: Candidate,
}

impl Found {
    // The grid point back in the chart: u = least + p.u x scale, v = least + p.v x scale - phase.
    pub fn point(self, phase: Phase) -> Point
        ensures { (result.u ≡ (answered self.frame phase self.best).x) × (result.v ≡ (answered self.frame phase self.best).y) }
    {
        let frame = self.frame;
        Point {
            u: frame.least.u + self.best.u * frame.scale.u,
            v: frame.least.v + self.best.v * frame.scale.v - points::phase_angle(phase),
        }
    }
}

// The chosen grid point of a sheet, with the sheet's frame, or the first of 11 to 14 that fails. The moved
// points and where the rings end go into the lists, as `frame::lay_out` lays them: lists of another size than
// the sheet's are refused with 9, and stay as they are.
pub fn find(
    s: &[u8],
    phase: Phase,
    points: &mut [Point],
    ends: &mut [usize],
) -> Result<Found, Refusal>
    ensures { (numbered result ≡ found_of (fitting (sheet_of s.now) (length points.old) (length ends.old)) (sheet_of s.now) phase) × (points.new ≡ laid_points (fitting (sheet_of s.now) (length points.old) (length ends.old)) (sheet_of s.now) phase points.old) × (ends.new ≡ laid_ends (fitting (sheet_of s.now) (length points.old) (length ends.old)) (sheet_of s.now) phase ends.old) }
{
    let frame = frame::lay_out(s, phase, points, ends)?;
    let rings = Rings { points, ends };
    let best = chosen(frame, sheet::sense_of(s), SheetRings { rings });
    if CLEARANCE_LIMIT < best.clearance {
        Ok(Found { frame, best })
    } else {
        Err(Refusal::NoneClear)
    }
}
