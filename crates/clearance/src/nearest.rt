// Rule 8 over all segments, as far as the search asks: the larger of a key `bar` and the least key of the
// distances. A segment whose key is not above `bar` settles that: it stops the scan. So those are asked first
// that stopped the grid points nearby, those beside them, and one of each coedge.
ghost use Rattle.std.specs.Prelude.{◌≡◌, false};
ghost use Rattle.std.specs.Float.{inf};
ghost use Rattle.leaves.specs.Bounds.{larger_of};
ghost use Rattle.clearance.specs.Nearest.{least_key, stops_at, Stop};

use crate::straight::straight_key;
use points::Segment;
use sheet::{COEDGE_POINTS, Point};

// The segments of four coedges.
const FEW_SEGMENTS: usize = 4 * COEDGE_POINTS;

// The larger key, and the place of a segment that has it or that stopped the scan.
#[derive(Clone, Copy)]
pub struct Near {
    pub key: f64,
    pub place: usize,
}

// What is asked of segments: whether a segment's key from p is not above `bar`.
#[derive(Clone, Copy)]
struct Asked<'a> {
    p: Point,
    bar: f64,
    list: &'a [Segment],
}

impl<'a> Asked<'a> {
    // Whether there is a segment in place k whose key is not above `bar`.
    #[tactic(auto, unfolding(crate::specs::Nearest::stops_at))]
    fn stops(self, k: usize) -> bool
        ensures { result ≡ stops_at self.entry.p self.entry.bar k self.entry.list.now }
    {
        self.list
            .get(k)
            .is_some_and(|s| straight_key(self.p, *s) <= self.bar)
    }

    // All segments from the first on, up to one that settles it.
    fn scan(self) -> Near
        ensures { result.key ≡ larger_of self.entry.bar (least_key self.entry.p (inf false) self.entry.list.now) }
    {
        let bar = self.bar;
        let mut least = f64::INFINITY;
        let mut place = 0;
        for (k, s) in self.list.iter().enumerate() {
            let key = straight_key(self.p, *s);
            if key < least {
                if key <= bar {
                    return Near { key: bar, place: k };
                }
                least = key;
                place = k;
            }
        }
        Near {
            key: leaves::larger_of(bar, least),
            place,
        }
    }

    // The place of a segment beside the one in `place`, eight, four, two or one before or behind it, that stops. One
    // from further on stops more of the rows that follow. It is kept out of the scan's code: in line all was slower by
    // three in a hundred. (Its promise is that of the two below, each to its own question.)
    #[inline(never)]
    fn stop_beside(self, place: usize) -> Option<usize>
        ensures { Stop self.entry.p self.entry.bar result self.entry.list.now }
    {
        if self.list.len() <= place {
            return None;
        }
        for d in [8, 4, 2, 1] {
            if self.stops(place + d) {
                return Some(place + d);
            }
            if d <= place && self.stops(place - d) {
                return Some(place - d);
            }
        }
        None
    }

    // The place of a segment that stops, of the first of each coedge.
    fn stop_among(self) -> Option<usize>
        ensures { Stop self.entry.p self.entry.bar result self.entry.list.now }
    {
        (0..=self.list.len() / COEDGE_POINTS)
            .map(|coedge| COEDGE_POINTS * coedge)
            .find(|place| self.stops(*place))
    }

    // The place of a segment that stops, of those that are likely to. Where those in the places of `hints` stopped a
    // grid point nearby, they do again, or one beside them does. The scan of a face of four coedges is so short that
    // nothing else is asked before it.
    fn likely_stop(self, hints: [usize; 2]) -> Option<usize>
        ensures { Stop self.entry.p self.entry.bar result self.entry.list.now }
    {
        for place in hints {
            if self.stops(place) {
                return Some(place);
            }
        }
        for place in hints {
            if let Some(beside) = self.stop_beside(place) {
                return Some(beside);
            }
        }
        if self.list.len() <= FEW_SEGMENTS {
            None
        } else {
            self.stop_among()
        }
    }
}

// The larger of `bar` and the least key of all segments. Those in the places of `hints` are asked first. (A match:
// `map_or_else` would put the scan into a closure, and is no plainer.)
pub fn nearest(p: Point, bar: f64, hints: [usize; 2], list: &[Segment]) -> Near
    ensures { result.key ≡ larger_of bar (least_key p (inf false) list.now) }
{
    let asked = Asked { p, bar, list };
    match asked.likely_stop(hints) {
        Some(place) => Near { key: bar, place },
        None => asked.scan(),
    }
}
