// The one walk over a sheet's bytes: its ring blocks, and the coedges of a block, each cut off as a part. Both are
// iterators that give as many parts as the count before them says; what the bytes' end cuts off is cut short. They are
// two, since each cuts by a size of its own: one over a trait that told it would be longer. What a part says is in
// content.rt.
ghost use Rattle.std.specs.Prelude.{◌≡◌, ◌≤◌, length, take, drop};
ghost use Rattle.std.specs.Iterator.{YieldsFirstBy, item_count};
ghost use Rattle.sheet.specs.Layout.{blocks, block_size, coedge_parts};

use crate::fields::{byte_at, coedge_size, head_size, kind_of, version_of};
use std::marker::Model;

// A block begins with its coedge count.
const BLOCK_HEAD: usize = 1;

// The first `size` bytes, or as many as there are, and those behind them.
pub(crate) fn parted(s: &[u8], size: usize) -> (&[u8], &[u8])
    ensures front { result.0.now ≡ take size s.now }
    ensures back { result.1.now ≡ drop size s.now }
{
    s.split_at(size.min(s.len()))
}

// The coedges that are left of a block, seen as the list of their bytes.
#[derive(Drop)]
pub(crate) struct CoedgeParts<'a> {
    version: u8,
    rest: &'a [u8],
    left: u8,
}

impl<'a> Model for CoedgeParts<'a> {
    ghost use Rattle.std.specs.Prelude.{ℕ, List};
    ghost use Rattle.sheet.specs.Layout.{cut, coedge_size};

    ghost Value = { List (List ℕ) };

    ghost view = { λ c. cut (coedge_size c.version) c.left c.rest.now };
}

impl<'a> Iterator for CoedgeParts<'a> {
    type Item = &'a [u8];

    ghost next_gives = { YieldsFirstBy (λ part. part.now) (λ rest. rest) };

    ghost remaining = { item_count (λ rest. rest) };

    fn next(&mut self) -> Option<&'a [u8]> {
        self.left = self.left.checked_sub(1)?;
        let (part, rest) = parted(self.rest, coedge_size(self.version, self.rest));
        self.rest = rest;
        Some(part)
    }
}

// The coedges of a ring block.
pub(crate) fn coedge_parts(version: u8, block: &[u8]) -> CoedgeParts<'_>
    ensures parts { result ≡ coedge_parts version block.now }
    ensures most { length result ≤ 255 }
{
    let (_head, rest) = parted(block, BLOCK_HEAD);
    CoedgeParts {
        version,
        rest,
        left: byte_at(block, 0),
    }
}

// The size of the ring block that the bytes begin with.
pub fn block_size(version: u8, s: &[u8]) -> usize
    ensures { result ≡ block_size version s.now }
{
    let mut size = BLOCK_HEAD;
    for part in coedge_parts(version, s) {
        size += part.len();
    }
    size
}

// The ring blocks that are left, seen as the list of their bytes.
#[derive(Drop)]
pub(crate) struct RingBlocks<'a> {
    version: u8,
    rest: &'a [u8],
    left: u8,
}

impl<'a> Model for RingBlocks<'a> {
    ghost use Rattle.std.specs.Prelude.{ℕ, List};
    ghost use Rattle.sheet.specs.Layout.{cut, block_size};

    ghost Value = { List (List ℕ) };

    ghost view = { λ b. cut (block_size b.version) b.left b.rest.now };
}

impl<'a> Iterator for RingBlocks<'a> {
    type Item = &'a [u8];

    ghost next_gives = { YieldsFirstBy (λ block. block.now) (λ rest. rest) };

    ghost remaining = { item_count (λ rest. rest) };

    fn next(&mut self) -> Option<&'a [u8]> {
        self.left = self.left.checked_sub(1)?;
        let (block, rest) = parted(self.rest, block_size(self.version, self.rest));
        self.rest = rest;
        Some(block)
    }
}

// The ring blocks of a sheet.
pub(crate) fn ring_blocks(s: &[u8]) -> RingBlocks<'_>
    ensures { result ≡ blocks s.now }
{
    let (_head, rest) = parted(s, head_size(kind_of(s)));
    RingBlocks {
        version: version_of(s),
        rest,
        left: byte_at(s, 7),
    }
}
