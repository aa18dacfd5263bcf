// The fields of a sheet.
ghost use Rattle.std.specs.Prelude.{◌≡◌, ◌≤◌, length, get_or, take, drop};
ghost use Rattle.sheet.specs.Layout.{big, number as number_at, number_of, version, kind, sense, ring_count, head_size, coedge_points, coedge_head, coedge_size};

use crate::kind::Kind;
use crate::sense::Sense;
use std::num::f64_from_bits_with_nan;

// Ring blocks of a sheet, and coedges of all of them together, at most.
pub const MOST_RINGS: usize = 16;

pub const MOST_COEDGES: usize = 128;

// A coedge of version 1 has so many points, one of version 2 at most so many.
pub const COEDGE_POINTS: usize = 17;

// A point is two f64.
pub(crate) const POINT_SIZE: usize = 16;

// How many points a sheet has at most, and one of at most 16 coedges, as nearly every face's is.
pub const MOST_POINTS: usize = 2176;

pub const SMALL_POINTS: usize = 272;

// The byte at a place; 0 past the end.
pub fn byte_at(s: &[u8], at: usize) -> u8
    ensures { result ≡ get_or s.now at 0 }
{
    s.get(at).copied().unwrap_or(0)
}

// The number of the first four bytes, big-endian.
pub(crate) fn word(s: &[u8]) -> u32
    requires { 4 ≤ length s.now }
    ensures { result ≡ big (take 4 s.now) }
{
    u32::from_be_bytes([s[0], s[1], s[2], s[3]])
}

// The f64 of these bits; -0 as +0, as document 01 asks, which std's does not.
#[tactic(auto, unfolding(crate::specs::Layout::number_of))]
fn float(bits: u64) -> f64
    ensures { result ≡ number_of bits }
{
    if bits % 0x8000_0000_0000_0000 == 0 {
        0.0
    } else {
        f64_from_bits_with_nan(bits)
    }
}

// The f64 at a place; +0 where fewer than eight bytes are left.
pub fn number(s: &[u8], at: usize) -> f64
    ensures { result ≡ number_at (drop at s.now) }
{
    let Some(rest) = s.get(at..) else {
        return 0.0;
    };
    let Some(bytes) = rest.first_chunk::<8>() else {
        return 0.0;
    };
    float(u64::from_be_bytes(*bytes))
}

// The sheet's version.
pub(crate) fn version_of(s: &[u8]) -> u8
    ensures { result ≡ version s.now }
{
    byte_at(s, 4)
}

// The surface's kind.
pub fn kind_of(s: &[u8]) -> Kind
    ensures { result ≡ kind s.now }
{
    Kind::from(byte_at(s, 5))
}

// The surface's sense.
pub fn sense_of(s: &[u8]) -> Sense
    ensures { result ≡ sense s.now }
{
    Sense::from(byte_at(s, 6))
}

// How many rings the sheet has.
pub fn ring_count(s: &[u8]) -> usize
    ensures { result ≡ ring_count s.now }
{
    byte_at(s, 7) as usize
}

// How many bytes stand before the ring blocks: a plane has nine numbers there.
#[tactic(auto, unfolding(crate::specs::Layout::head_size))]
pub fn head_size(kind: Kind) -> usize
    ensures { result ≡ head_size kind }
{
    if kind.is_plane() { 80 } else { 8 }
}

// How many points the coedge has that the bytes begin with: in version 2 a byte behind its deviation says it.
#[tactic(auto, unfolding(crate::specs::Layout::coedge_points))]
pub(crate) fn coedge_points(version: u8, s: &[u8]) -> usize
    ensures count { result ≡ coedge_points version s.now }
    ensures most { result ≤ 255 }
{
    if version == 2 {
        byte_at(s, 8) as usize
    } else {
        COEDGE_POINTS
    }
}

// How many bytes stand before a coedge's points.
#[tactic(auto, unfolding(crate::specs::Layout::coedge_head))]
pub(crate) fn coedge_head(version: u8) -> usize
    ensures size { result ≡ coedge_head version }
    ensures most { result ≤ 9 }
{
    if version == 2 { 9 } else { 8 }
}

// The size of the coedge that the bytes begin with.
#[tactic(auto, unfolding(crate::specs::Layout::coedge_size))]
pub(crate) fn coedge_size(version: u8, s: &[u8]) -> usize
    ensures { result ≡ coedge_size version s.now }
{
    coedge_head(version) + POINT_SIZE * coedge_points(version, s)
}
