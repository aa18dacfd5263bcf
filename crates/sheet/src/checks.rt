// The refusals 1 to 7, in the table's order.
ghost use Rattle.std.specs.Prelude.{◌≡◌, true, false, ◌++◌};
ghost use Rattle.sheet.specs.Layout.{kind, sense, ring_count, plane, sheet_of};
ghost use Rattle.sheet.specs.Checks.{length_wrong, version_wrong, codes_wrong, ring_count_wrong, blocks_wrong, plane_wrong, layout_checks, content_checks};
ghost use Rattle.answers.specs.Outcome.{first, status_of};

use crate::fault::layout_fault;
use crate::fields::{MOST_RINGS, kind_of, ring_count, sense_of, version_of, word};
use crate::walk::{COORDINATE_LIMIT, any_beyond, coedges_wrong, rings_wrong};
use answers::Refusal;

// 2, for a component of the u axis or the normal.
const AXIS_LIMIT: f64 = 2.0;

// 1: under 8 bytes, or a length field that is not the number of bytes after it.
#[tactic(auto, unfolding(crate::specs::Checks::length_wrong))]
fn length_wrong(s: &[u8]) -> bool
    ensures { result ≡ length_wrong s.now }
{
    s.len() < 8 || word(s) as usize != s.len() - 4
}

// 2: a version other than 1.
#[tactic(auto, unfolding(crate::specs::Checks::version_wrong))]
fn version_wrong(s: &[u8]) -> bool
    ensures { result ≡ version_wrong s.now }
{
    version_of(s) != 1
}

// 3: a kind above 6 or a sense above 2.
#[tactic(auto, unfolding(crate::specs::Checks::codes_wrong))]
fn codes_wrong(s: &[u8]) -> bool
    ensures { result ≡ codes_wrong (kind s.now) (sense s.now) }
{
    kind_of(s).is_unknown() || sense_of(s).is_unknown()
}

// 4: no ring, or more than 16.
#[tactic(auto, unfolding(crate::specs::Checks::ring_count_wrong))]
fn ring_count_wrong(s: &[u8]) -> bool
    ensures { result ≡ ring_count_wrong (kind s.now) (ring_count s.now) }
{
    !(1..=MOST_RINGS).contains(&ring_count(s))
}

// 5: plane or ring blocks that overrun the end or leave bytes over.
#[tactic(auto, using(crate::proofs::Walks::fault_told))]
fn blocks_wrong(s: &[u8]) -> bool
    ensures { result ≡ blocks_wrong s.now }
{
    layout_fault(s).is_some()
}

// 7, of a plane's origin, u axis and normal.
#[tactic(auto, using(crate::proofs::Walks::plane_is, crate::proofs::Walks::no_plane_lem))]
fn plane_wrong(s: &[u8]) -> bool
    ensures { result ≡ plane_wrong (plane s.now) }
{
    kind_of(s).is_plane()
        && (any_beyond(COORDINATE_LIMIT, s, 8, 3) || any_beyond(AXIS_LIMIT, s, 32, 6))
}

// The first check of 1 to 7 that fails.
#[tactic(auto, using(crate::proofs::Checked::table), unfolding(answers::specs::Outcome::status_of, answers::specs::Outcome::number_of))]
pub fn check(s: &[u8]) -> Result<(), Refusal>
    ensures { status_of result ≡ first (layout_checks s.now ++ content_checks (sheet_of s.now)) }
{
    if length_wrong(s) {
        return Err(Refusal::Length);
    }
    if version_wrong(s) {
        return Err(Refusal::Version);
    }
    if codes_wrong(s) {
        return Err(Refusal::Kind);
    }
    if ring_count_wrong(s) {
        return Err(Refusal::RingCount);
    }
    if blocks_wrong(s) {
        return Err(Refusal::Blocks);
    }
    if coedges_wrong(s) {
        return Err(Refusal::Coedges);
    }
    if plane_wrong(s) || rings_wrong(s) {
        return Err(Refusal::Numbers);
    }
    Ok(())
}
