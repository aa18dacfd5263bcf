// What joins two points (rule 6), and a ring's segments, one after the other.
ghost use Rattle.std.specs.Prelude.{◌≡◌};
ghost use Rattle.std.specs.Iterator.{YieldsFirst, item_count};
ghost use Rattle.sheet.specs.Content.{point};
ghost use Rattle.points.specs.Segments.{segments, segments_left, segment, gained, middle};

use crate::turns::turns;
use sheet::Point;

// From a to b.
#[derive(Clone, Copy)]
pub struct Between<A> {
    pub a: A,
    pub b: A,
}

// Between two points of the chart.
pub type Segment = Between<Point>;

impl Between<Point> {
    // On a periodic chart: b's u gains the whole turns that bring it nearest to a's.
    #[tactic(auto, unfolding(crate::specs::Segments::gained))]
    pub fn gained(self, period: f64) -> Segment
        ensures { result ≡ segment self.a (point (gained period self) self.b.v) }
    {
        Between {
            a: self.a,
            b: Point {
                u: self.b.u + turns(self.a.u - self.b.u, period),
                v: self.b.v,
            },
        }
    }

    // The u in the middle.
    pub fn middle(self) -> f64
        ensures { result ≡ middle self.a.u self.b.u }
    {
        (self.a.u + self.b.u) / 2.0
    }
}

// The segments of a ring that are left: from each point of the rest to the next, and from the last to the ring's first.
#[derive(Clone, Copy)]
pub struct SegmentsLeft<'a, A> {
    first: Option<A>,
    rest: &'a [A],
}

impl<'a, A: Copy> Iterator for SegmentsLeft<'a, A> {
    type Item = Between<A>;

    ghost next_gives = { YieldsFirst segments_left };

    ghost remaining = { item_count segments_left };

    #[tactic(auto, unfolding(crate::specs::Segments::segments_left, crate::specs::Segments::segments_from))]
    fn next(&mut self) -> Option<Between<A>> {
        let first = self.first?;
        let (a, rest) = self.rest.split_first()?;
        self.rest = rest;
        Some(Between {
            a: *a,
            b: rest.first().copied().unwrap_or(first),
        })
    }
}

// The segments that join each point of the ring to the next, the last to the first.
#[tactic(auto, unfolding(crate::specs::Segments::segments_left, crate::specs::Segments::segments))]
pub fn segments<A: Copy>(ring: &[A]) -> SegmentsLeft<'_, A>
    ensures { segments_left result ≡ segments ring.now }
{
    SegmentsLeft {
        first: ring.first().copied(),
        rest: ring,
    }
}
