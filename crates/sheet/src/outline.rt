// A sheet's outline: its rings, their coedges and the points of these, as the bytes say them. Whoever asks for a ring
// asks here, and knows of no byte and no version. What the bytes' end cuts off reads as zeros. (The iterators over
// rings and over coedges are alike, but each is seen as another list: no type is generic over what it is seen as.)
ghost use Rattle.std.specs.Prelude.{◌≡◌, ◌≤◌, length};
ghost use Rattle.std.specs.Iterator.{YieldsFirst, item_count};
ghost use Rattle.sheet.specs.Content.{ring_points};
ghost use Rattle.sheet.specs.Layout.{sheet_of};

use crate::fields::{POINT_SIZE, byte_at, coedge_head, coedge_points, number, version_of};
use crate::parts::{CoedgeParts, RingBlocks, coedge_parts, parted, ring_blocks};
use crate::point::Point;
use std::marker::Model;

// The points that are left of a coedge, seen as the list of them.
#[derive(Drop)]
pub struct CoedgePoints<'a> {
    rest: &'a [u8],
    left: usize,
}

impl<'a> Model for CoedgePoints<'a> {
    ghost use Rattle.std.specs.Prelude.{List};
    ghost use Rattle.sheet.specs.Content.{Point as point_type};
    ghost use Rattle.sheet.specs.Layout.{points};

    ghost Value = { List point_type };

    ghost view = { λ p. points p.left p.rest.now };
}

impl<'a> Iterator for CoedgePoints<'a> {
    type Item = Point;

    ghost next_gives = { YieldsFirst (λ rest. rest) };

    ghost remaining = { item_count (λ rest. rest) };

    fn next(&mut self) -> Option<Point> {
        self.left = self.left.checked_sub(1)?;
        let point = Point {
            u: number(self.rest, 0),
            v: number(self.rest, 8),
        };
        let (_read, rest) = parted(self.rest, POINT_SIZE);
        self.rest = rest;
        Some(point)
    }
}

// A coedge of a sheet, seen as what it says.
#[derive(Drop)]
pub struct Coedge<'a> {
    version: u8,
    part: &'a [u8],
}

impl<'a> Model for Coedge<'a> {
    ghost use Rattle.sheet.specs.Content.{Coedge as coedge_type};
    ghost use Rattle.sheet.specs.Layout.{coedge};

    ghost Value = { coedge_type };

    ghost view = { λ c. coedge c.version c.part.now };
}

impl<'a> Coedge<'a> {
    // Its deviation, with which it begins.
    #[tactic(auto, unfolding(crate::specs::Layout::coedge))]
    pub fn deviation(&self) -> f64
        ensures { result ≡ self.now.deviation }
    {
        number(self.part, 0)
    }

    // How many points it has. A byte counts them, so they are few.
    #[tactic(auto, using(crate::proofs::Blocks::coedge_length))]
    pub fn point_count(&self) -> usize
        ensures count { result ≡ length self.now.points }
        ensures most { result ≤ 255 }
    {
        coedge_points(self.version, self.part)
    }

    // Its points.
    #[tactic(auto, unfolding(crate::specs::Layout::coedge))]
    pub fn points(&self) -> CoedgePoints<'a>
        ensures { result ≡ self.now.points }
    {
        let (_head, rest) = parted(self.part, coedge_head(self.version));
        CoedgePoints {
            rest,
            left: coedge_points(self.version, self.part),
        }
    }
}

// The coedges that are left of a ring, seen as the list of them.
#[derive(Drop)]
pub struct Coedges<'a> {
    version: u8,
    parts: CoedgeParts<'a>,
}

impl<'a> Model for Coedges<'a> {
    ghost use Rattle.std.specs.Prelude.{List, map};
    ghost use Rattle.sheet.specs.Content.{Coedge as coedge_type};
    ghost use Rattle.sheet.specs.Layout.{coedge};

    ghost Value = { List coedge_type };

    ghost view = { λ c. map (coedge c.version) c.parts };
}

impl<'a> Iterator for Coedges<'a> {
    type Item = Coedge<'a>;

    ghost next_gives = { YieldsFirst (λ rest. rest) };

    ghost remaining = { item_count (λ rest. rest) };

    fn next(&mut self) -> Option<Coedge<'a>> {
        let part = self.parts.next()?;
        Some(Coedge {
            version: self.version,
            part,
        })
    }
}

// A ring of a sheet, seen as the list of its coedges.
#[derive(Drop)]
pub struct Ring<'a> {
    version: u8,
    block: &'a [u8],
}

impl<'a> Model for Ring<'a> {
    ghost use Rattle.std.specs.Prelude.{List};
    ghost use Rattle.sheet.specs.Content.{Coedge as coedge_type};
    ghost use Rattle.sheet.specs.Layout.{ring};

    ghost Value = { List coedge_type };

    ghost view = { λ r. ring r.version r.block.now };
}

impl<'a> Ring<'a> {
    // Its coedges. A byte counts them.
    #[tactic(auto, using(crate::proofs::Blocks::parts_count), unfolding(crate::specs::Layout::ring))]
    pub fn coedges(&self) -> Coedges<'a>
        ensures coedges { result ≡ self.now }
        ensures most { length self.now ≤ 255 }
    {
        Coedges {
            version: self.version,
            parts: coedge_parts(self.version, self.block),
        }
    }

    // How many they are. A byte counts them.
    #[tactic(auto, using(crate::proofs::Blocks::ring_length))]
    pub(crate) fn coedge_count(&self) -> usize
        ensures count { result ≡ length self.now }
        ensures most { result ≤ 255 }
    {
        byte_at(self.block, 0) as usize
    }

    // How many points its coedges have together: at most 255, of at most 255 points each.
    pub fn point_count(&self) -> usize
        ensures count { result ≡ length (ring_points self.now) }
        ensures most { result ≤ 65025 }
    {
        let mut count = 0;
        for coedge in self.coedges() {
            count += coedge.point_count();
        }
        count
    }
}

// The outline: the rings that are left of a sheet, seen as the list of them.
#[derive(Drop)]
pub struct Outline<'a> {
    version: u8,
    blocks: RingBlocks<'a>,
}

impl<'a> Model for Outline<'a> {
    ghost use Rattle.std.specs.Prelude.{List, map};
    ghost use Rattle.sheet.specs.Content.{Coedge as coedge_type};
    ghost use Rattle.sheet.specs.Layout.{ring};

    ghost Value = { List (List coedge_type) };

    ghost view = { λ o. map (ring o.version) o.blocks };
}

impl<'a> Iterator for Outline<'a> {
    type Item = Ring<'a>;

    ghost next_gives = { YieldsFirst (λ rest. rest) };

    ghost remaining = { item_count (λ rest. rest) };

    fn next(&mut self) -> Option<Ring<'a>> {
        let block = self.blocks.next()?;
        Some(Ring {
            version: self.version,
            block,
        })
    }
}

// The rings of a sheet.
#[tactic(auto, unfolding(crate::specs::Layout::sheet_of))]
pub fn rings(s: &[u8]) -> Outline<'_>
    ensures { result ≡ (sheet_of s.now).rings }
{
    Outline {
        version: version_of(s),
        blocks: ring_blocks(s),
    }
}
