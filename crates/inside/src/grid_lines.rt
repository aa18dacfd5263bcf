// Rule 6: the grid's lines, and how many of them are below a number.
ghost use Rattle.std.specs.Prelude.{◌≡◌, ◌≤◌};
ghost use Rattle.inside.specs.Lines.{NoneAfter, Below};

use points::part;
use sheet::Point;

// A point, and how many of the lines are below its v.
#[derive(Clone, Copy)]
pub(crate) struct Counted {
    pub point: Point,
    pub below: u32,
    ghost counted: { Below point.v below },
}

impl Counted {
    // The way there from the count of a point nearby, as the one before in a ring, is short.
    pub(crate) fn from_near(near: u32, point: Point) -> Counted
        ensures { result.point ≡ point }
    {
        Counted {
            point,
            below: lines_below(near, point.v),
        }
    }
}

// The first count from `near` up after which no line is below x.
fn raised(near: u32, x: f64) -> u32
    ensures { NoneAfter x result }
{
    (near..31)
        .find(|count| !(part(*count + 1) < x))
        .unwrap_or(31)
}

// The first count from `most` down whose last line is below x. (No `find`: the kit has no law of a range's `rev`.)
#[tactic(auto, using(crate::proofs::Ascending::line_by_line))]
fn lowered(most: u32, x: f64) -> u32
    requires { NoneAfter x most }
    ensures { Below x result }
{
    for count in (1..=most).rev() {
        if part(count) < x {
            return count;
        }
    }
    0
}

// How many lines are below x: the first ones, since the lines ascend. It begins at a count nearby.
pub(crate) fn lines_below(near: u32, x: f64) -> u32
    ensures { Below x result }
{
    lowered(raised(near, x), x)
}
