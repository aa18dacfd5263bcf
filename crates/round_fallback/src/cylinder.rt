// The round fallback of faces.rs, up to the middle angle and height.
ghost use Rattle.std.specs.Prelude.{◌≡◌, ◌≤◌, map, length, take};
ghost use Rattle.std.specs.List.{AllByRecursion};
ghost use Rattle.std.specs.Float.{binary64};
ghost use Rattle.std.specs.Float.Ieee.{sub};
ghost use Rattle.leaves.specs.Wrap.{rem_tau};
ghost use Rattle.points.specs.Bounds.{least, greatest};
ghost use Rattle.points.specs.Segments.{middle as middle_of};
ghost use Rattle.answers.specs.Answers.{middle_paper};
ghost use Rattle.round_fallback.specs.Sorted.{Numeric};
ghost use Rattle.round_fallback.specs.Cylinder.{round_wrong, heights_wrong, sorted_of, is_near, kept_of, corner_angles, gap_of, wider as wider_of, widest_of, with_number, opposite as opposite_of, middle_height, middle_among, cylinder_point_of};

use answers::{ARGUMENT_LIMIT, Middle, Refusal, any_number_beyond};
use leaves::constants::{MICRO, PI, TAU};
use points::{Between, segments};
use std::cmp::OrderedFloat;

// As document 01 limits heights and angles.
const MOST_OF_EITHER: usize = 256;

// An empty stretch between two corner angles, and where it begins.
#[derive(Clone, Copy, Debug, PartialEq)]
pub struct Stretch {
    pub gap: f64,
    pub from: f64,
}

// The least and the greatest of numbers.
#[derive(Clone, Copy, Debug, PartialEq)]
pub struct Extent {
    pub least: f64,
    pub greatest: f64,
}

// 16: a number of either list is beyond 2^20.
#[tactic(auto, unfolding(crate::specs::Cylinder::round_wrong))]
fn round_wrong(heights: &[f64], angles: &[f64]) -> bool
    ensures { result ≡ round_wrong heights.now angles.now }
{
    any_number_beyond(ARGUMENT_LIMIT, heights) || any_number_beyond(ARGUMENT_LIMIT, angles)
}

impl Extent {
    // The extent of one number more.
    #[tactic(auto, unfolding(crate::specs::Cylinder::with_number))]
    fn with_number(self, x: f64) -> Extent
        ensures { result ≡ with_number self x }
    {
        Extent {
            least: leaves::smaller_of(self.least, x),
            greatest: leaves::larger_of(self.greatest, x),
        }
    }

    fn spread(self) -> f64
        ensures { result ≡ sub binary64 self.greatest self.least }
    {
        self.greatest - self.least
    }

    fn middle(self) -> f64
        ensures { result ≡ middle_of self.least self.greatest }
    {
        (self.least + self.greatest) / 2.0
    }
}

// The least and the greatest of the list; infinities of none.
fn extent_of(list: &[f64]) -> Extent
    ensures { (result.least ≡ least list.now) × (result.greatest ≡ greatest list.now) }
{
    let none = Extent {
        least: f64::INFINITY,
        greatest: f64::NEG_INFINITY,
    };
    list.iter().fold(none, |found, x| found.with_number(*x))
}

// 22: no heights, over 256 of either, or a spread of at most 1e-6.
#[tactic(auto, using(leaves::proofs::ConstantBits::micro_bits), unfolding(crate::specs::Cylinder::heights_wrong))]
fn heights_wrong(heights: &[f64], angles: &[f64]) -> bool
    ensures { result ≡ heights_wrong heights.now angles.now }
{
    heights.is_empty()
        || MOST_OF_EITHER < heights.len()
        || MOST_OF_EITHER < angles.len()
        || extent_of(heights).spread() <= MICRO
}

// The numbers in the total order: that of the numbers, and -0 before +0. One over a zero tells its sign.
fn sort(list: &mut [f64])
    requires { AllByRecursion Numeric list.old }
    ensures { list.new ≡ sorted_of list.old }
{
    list.sort_unstable_by_key(|x| (OrderedFloat(*x), OrderedFloat(1.0 / *x)));
}

// Whether two angles are nearer than 1e-6.
#[tactic(auto, using(leaves::proofs::ConstantBits::micro_bits), unfolding(crate::specs::Cylinder::is_near))]
fn is_near(a: f64, b: f64) -> bool
    ensures { result ≡ is_near a b }
{
    let d = a - b;
    d < MICRO && -d < MICRO
}

// Those that are not near the last one kept, over the front of the list.
fn keep(sorted: &mut [f64]) -> &[f64]
    ensures { result.now ≡ kept_of sorted.old }
{
    let Some(first) = sorted.first() else {
        return sorted;
    };
    let mut last = *first;
    let mut count = 1;
    // By index, since the list is read and written in place: no slice has a dedup, and the archive uses none of the
    // kit's crates that have one.
    for k in 1..sorted.len() {
        let x = sorted[k];
        if !is_near(x, last) {
            sorted[count] = x;
            count += 1;
            last = x;
        }
    }
    &sorted[..count]
}

// Each of the angles reduced to a turn, over a list that has room for just the angles. (An index in a zip's place: of
// what is written through a zip, no clause of it speaks.)
fn reduce(angles: &[f64], turned: &mut [f64])
    requires { length turned.old ≡ length angles.now }
    ensures { turned.new ≡ map rem_tau angles.now }
{
    for (k, angle) in angles.iter().enumerate() {
        turned[k] = leaves::rem_tau(*angle);
    }
}

// The corner angles, each reduced to a turn, in order, over a list that has room for just the angles.
#[tactic(auto, unfolding(crate::specs::Cylinder::corner_angles))]
fn corner_angles<'a>(angles: &[f64], turned: &'a mut [f64]) -> &'a [f64]
    requires room { length turned.old ≡ length angles.now }
    requires numbers { AllByRecursion Numeric (map rem_tau angles.now) }
    ensures { result.now ≡ corner_angles angles.now }
{
    reduce(angles, turned);
    sort(turned);
    keep(turned)
}

// The stretch from one of `count` corner angles to the next.
#[tactic(auto, unfolding(crate::specs::Cylinder::gap_of))]
fn gap(count: usize, s: Between<f64>) -> f64
    ensures { result ≡ gap_of count s }
{
    if count == 1 {
        TAU
    } else {
        leaves::rem_tau(s.b - s.a)
    }
}

impl Stretch {
    // The wider one of the stretch and the next, of equal ones the first.
    #[tactic(auto, unfolding(crate::specs::Cylinder::wider))]
    fn or_wider(self, count: usize, s: Between<f64>) -> Stretch
        ensures { result ≡ wider_of count self s }
    {
        let gap = gap(count, s);
        if self.gap < gap {
            Stretch { gap, from: s.a }
        } else {
            self
        }
    }

    // The middle of what the stretch leaves.
    #[tactic(auto, unfolding(crate::specs::Cylinder::opposite))]
    fn opposite(self) -> f64
        ensures { result ≡ opposite_of self }
    {
        self.from + self.gap + (TAU - self.gap) / 2.0
    }
}

// The widest empty stretch, the first of equal ones.
#[tactic(auto, unfolding(crate::specs::Cylinder::widest_of))]
fn widest(angles: &[f64]) -> Stretch
    ensures { result ≡ widest_of angles.now }
{
    let none = Stretch {
        gap: 0.0,
        from: 0.0,
    };
    segments(angles).fold(none, |best, s| best.or_wider(angles.len(), s))
}

#[tactic(auto, unfolding(crate::specs::Cylinder::middle_height))]
fn middle_height(heights: &[f64]) -> f64
    ensures { result ≡ middle_height heights.now }
{
    extent_of(heights).middle()
}

// The answer of the heights and the corner angles; 23: the middle is unclear.
#[tactic(auto, using(leaves::proofs::ConstantBits::micro_bits, answers::proofs::Calls::calls), unfolding(crate::specs::Cylinder::middle_among, crate::specs::Cylinder::unclear, crate::specs::Cylinder::middle_angle))]
fn middle(heights: &[f64], angles: &[f64]) -> Result<Middle, Refusal>
    ensures { middle_paper result ≡ middle_among heights.now angles.now }
{
    let w = widest(angles);
    let angle = if angles.len() == 1 {
        w.from + PI
    } else if PI + MICRO < w.gap {
        w.opposite()
    } else {
        return Err(Refusal::MiddleUnclear);
    };
    Ok(Middle {
        angle,
        height: middle_height(heights),
    })
}

// The middle angle and height of a round face, from the heights and angles of its corners.
// Heights and angles are two lists, not one of pairs: C lends two, and their lengths may differ.
#[tactic(auto, using(crate::proofs::Sorting::turned_numeric, crate::proofs::Refusals::few_angles, answers::proofs::Calls::calls), unfolding(crate::specs::Cylinder::cylinder_point_of))]
pub fn cylinder_point(heights: &[f64], angles: &[f64]) -> Result<Middle, Refusal>
    ensures { middle_paper result ≡ cylinder_point_of heights.now angles.now }
{
    if round_wrong(heights, angles) {
        return Err(Refusal::Argument);
    }
    if heights_wrong(heights, angles) {
        return Err(Refusal::Heights);
    }
    let mut turned = [0.0; MOST_OF_EITHER];
    middle(heights, corner_angles(angles, &mut turned[..angles.len()]))
}
