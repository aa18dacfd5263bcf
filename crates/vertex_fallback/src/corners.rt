// The corners of a planar face, whose places stand in a list of numbers, each corner with its two neighbours.
ghost use Rattle.std.specs.Prelude.{◌≡◌};
ghost use Rattle.std.specs.Iterator.{YieldsFirst, item_count};
ghost use Rattle.space.specs.Places.{triples, places_left};
ghost use Rattle.points.specs.Bounds.{last_of};
ghost use Rattle.vertex_fallback.specs.Vertices.{third as third_of, centre_of, degenerate, corners_of};
ghost use Rattle.vertex_fallback.specs.Left.{corners_left};

use leaves::constants::DEGENERATE_LIMIT;
use space::{Place, Places};

// A corner, the one before it and the one after it.
#[derive(Clone, Copy, Debug, PartialEq)]
pub struct Corner {
    pub before: Place,
    pub here: Place,
    pub after: Place,
}

// One coordinate of the centre.
#[tactic(auto, unfolding(crate::specs::Vertices::third))]
fn third(a: f64, b: f64, c: f64) -> f64
    ensures { result ≡ third_of a b c }
{
    (a + b + c) / 3.0
}

impl Corner {
    #[tactic(auto, unfolding(crate::specs::Vertices::centre_of))]
    pub(crate) fn centre(self) -> Place
        ensures { result ≡ centre_of self }
    {
        let Corner {
            before,
            here,
            after,
        } = self;
        Place {
            x: third(before.x, here.x, after.x),
            y: third(before.y, here.y, after.y),
            z: third(before.z, here.z, after.z),
        }
    }

    // Whether the three lie all but on a line.
    #[tactic(auto, using(leaves::proofs::ConstantBits::degenerate_limit_bits), unfolding(crate::specs::Vertices::degenerate, crate::specs::Vertices::normal_of))]
    pub(crate) fn is_degenerate(self) -> bool
        ensures { result ≡ degenerate self }
    {
        let normal = space::cross(
            space::minus(self.here, self.before),
            space::minus(self.after, self.before),
        );
        space::dot(normal, normal) < DEGENERATE_LIMIT
    }
}

// The corners of a ring that are left: `last` has the first place after it, and there is none where none is left.
#[derive(Clone, Copy)]
pub(crate) struct Corners<'a> {
    last: Option<Corner>,
    rest: Places<'a>,
}

impl<'a> Iterator for Corners<'a> {
    type Item = Corner;

    ghost next_gives = { YieldsFirst corners_left };

    ghost remaining = { item_count corners_left };

    #[tactic(auto, unfolding(crate::specs::Left::corners_left, crate::specs::Vertices::corners_from))]
    fn next(&mut self) -> Option<Corner> {
        let last = self.last?;
        match self.rest.next() {
            None => self.last.take(),
            Some(after) => {
                self.last = Some(Corner {
                    before: last.here,
                    here: after,
                    ..last
                });
                Some(Corner { after, ..last })
            }
        }
    }
}

// The last of a place and those after it.
fn last_of(first: Place, rest: Places) -> Place
    ensures { result ≡ last_of first (places_left rest.entry) }
{
    rest.last().unwrap_or(first)
}

impl<'a> Corners<'a> {
    // The corners of the ring whose places stand in the list.
    #[tactic(auto, unfolding(crate::specs::Left::corners_left, crate::specs::Vertices::corners_of))]
    pub(crate) fn around(list: &'a [f64]) -> Corners<'a>
        ensures { corners_left result ≡ corners_of (triples list.now) }
    {
        let mut rest = Places { list };
        match rest.next() {
            None => Corners { last: None, rest },
            Some(first) => Corners {
                last: Some(Corner {
                    before: last_of(first, rest),
                    here: first,
                    after: first,
                }),
                rest,
            },
        }
    }
}
