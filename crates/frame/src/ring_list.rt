// Rings that stand in one list of points, one behind the other.
ghost use Rattle.std.specs.Prelude.{◌≡◌};
ghost use Rattle.std.specs.Iterator.{YieldsFirstBy, item_count};
ghost use Rattle.frame.specs.Parts.{rings_in, rings_left};

use sheet::Point;

// The points of all rings, and where each ring ends. An end past the points is theirs, and a ring that ends before it
// begins has none. Points and ends stand in two lists: a list of slices would be a second list beside the points, made
// anew for the moved and for the normalised points, and rule 3 reads the points of all rings as one list.
#[derive(Clone, Copy)]
pub struct Rings<'a> {
    pub points: &'a [Point],
    pub ends: &'a [usize],
}

// The rings that are left: the next begins at `from`.
#[derive(Clone, Copy)]
pub struct RingsLeft<'a> {
    points: &'a [Point],
    from: usize,
    ends: &'a [usize],
}

impl<'a> IntoIterator for Rings<'a> {
    type Item = &'a [Point];

    type IntoIter = RingsLeft<'a>;

    ghost into_iter_gives = { λ rings it. rings_left it ≡ rings_in rings };

    #[tactic(auto, unfolding(crate::specs::Parts::rings_in, crate::specs::Parts::rings_left))]
    fn into_iter(self) -> RingsLeft<'a> {
        RingsLeft {
            points: self.points,
            from: 0,
            ends: self.ends,
        }
    }
}

impl<'a> Iterator for RingsLeft<'a> {
    type Item = &'a [Point];

    ghost next_gives = { YieldsFirstBy (λ ring. ring.now) rings_left };

    ghost remaining = { item_count rings_left };

    #[tactic(auto, unfolding(crate::specs::Parts::rings_left, crate::specs::Parts::rings_from))]
    fn next(&mut self) -> Option<&'a [Point]> {
        let (end, ends) = self.ends.split_first()?;
        let rest = &self.points[self.from.min(self.points.len())..];
        let ring = &rest[..end.saturating_sub(self.from).min(rest.len())];
        self.from = *end;
        self.ends = ends;
        Some(ring)
    }
}
