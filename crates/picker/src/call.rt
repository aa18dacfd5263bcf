// Image pick and plane pick.
ghost use Rattle.std.specs.Prelude.{◌≡◌, ◌≤◌};
ghost use Rattle.answers.specs.Answers.{paper};
ghost use Rattle.sheet.specs.Layout.{sheet_of};
ghost use Rattle.frame.specs.Framing.{point_count};
ghost use Rattle.picker.specs.ImagePick.{image_pick_of};
ghost use Rattle.picker.specs.PlanePick.{plane_pick_of};
ghost use Rattle.picker.specs.Stages.{ImagePassed, PlanePassed, closing};

use crate::images::images_wrong;
use answers::{Answer, Refusal, Values};
use chart::find;
use frame::Rings;
use points::Phase;
use search::Candidate;
use sheet::{MOST_POINTS, ORIGIN, SMALL_POINTS};
use space::{Place, place_at};

// The answer for the point p of the chosen grid point, and 15 where it is too close.
fn answer_at(is_close: bool, p: Place, best: Candidate) -> Answer
    ensures { paper result ≡ closing is_close p best }
{
    if is_close {
        Err(Refusal::TooClose)
    } else {
        Ok(Values {
            x: p.x,
            y: p.y,
            z: p.z,
            clearance: best.clearance,
            count: best.count,
        })
    }
}

// Image pick of what passes the checks down to 10, over lists of its own, of which the first has room for N points.
// A type cannot say that N is room enough, so each call at a size says it.
fn image_within<const N: usize>(s: &[u8], phase: Phase, images: &[f64]) -> Answer
    requires { ImagePassed s.now phase images.now × (point_count (sheet_of s.now) ≤ N) × (N ≤ 2176) }
    ensures { paper result ≡ image_pick_of s.now phase images.now }
{
    let mut moved_room = [ORIGIN; N];
    let mut ends_room = [0usize; sheet::MOST_RINGS];
    let moved = &mut moved_room[..frame::point_count(s)];
    let ends = &mut ends_room[..sheet::ring_count(s)];
    let found = find(s, phase, moved, ends)?;
    let last = place_at(images, images.len() - 3);
    answer_at(physical::too_close(s, last, images), last, found.best)
}

// The last image, for the grid point that the chart chooses.
pub fn image_pick(s: &[u8], phase: Phase, images: &[f64]) -> Answer
    ensures { paper result ≡ image_pick_of s.now phase images.now }
{
    frame::check(s, phase)?;
    if images_wrong(s, images) {
        return Err(Refusal::Images);
    }
    if frame::point_count(s) <= SMALL_POINTS {
        image_within::<SMALL_POINTS>(s, phase, images)
    } else {
        image_within::<MOST_POINTS>(s, phase, images)
    }
}

// Plane pick of what passes the checks down to 8, over lists of its own, of which the first has room for N points.
// Each call says that N is room enough, as at `image_within`.
fn plane_within<const N: usize>(s: &[u8]) -> Answer
    requires { PlanePassed s.now × (point_count (sheet_of s.now) ≤ N) × (N ≤ 2176) }
    ensures { paper result ≡ plane_pick_of s.now }
{
    let mut moved_room = [ORIGIN; N];
    let mut ends_room = [0usize; sheet::MOST_RINGS];
    let moved = &mut moved_room[..frame::point_count(s)];
    let ends = &mut ends_room[..sheet::ring_count(s)];
    let phase = Phase::from(0u32);
    let found = find(s, phase, moved, ends)?;
    let p = physical::place_on(s, found.point(phase));
    let rings = Rings {
        points: moved,
        ends,
    };
    answer_at(physical::is_plane_close(s, p, rings), p, found.best)
}

// The place on the sheet's plane of the grid point that the chart chooses.
pub fn plane_pick(s: &[u8]) -> Answer
    ensures { paper result ≡ plane_pick_of s.now }
{
    sheet::check(s)?;
    let kind = sheet::kind_of(s);
    if !kind.is_plane() {
        return Err(Refusal::Phase);
    }
    if frame::point_count(s) <= SMALL_POINTS {
        plane_within::<SMALL_POINTS>(s)
    } else {
        plane_within::<MOST_POINTS>(s)
    }
}
