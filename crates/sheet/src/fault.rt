// The walk of check 5: the first fault of the layout, in file order.
ghost use Rattle.std.specs.Prelude.{◌≡◌};
ghost use Rattle.sheet.specs.Checks.{coedge_fault, block_fault, layout_fault};
ghost use Rattle.sheet.specs.Faults.{fault_number};

use crate::fields::{
    COEDGE_POINTS, coedge_head, coedge_points, coedge_size, head_size, kind_of, version_of,
};
use crate::parts::{coedge_parts, ring_blocks};

// What is wrong with a layout. A count of points is wrong in version 2 only.
#[derive(Clone, Copy, Debug, PartialEq, Eq)]
pub(crate) enum Fault {
    Blocks,
    PointCount,
}

// Of a coedge, cut short where it overruns the end.
#[tactic(auto, unfolding(crate::specs::Checks::coedge_fault, crate::specs::Faults::fault_number, crate::specs::Faults::number_of))]
fn coedge_fault(version: u8, part: &[u8]) -> Option<Fault>
    ensures { fault_number result ≡ coedge_fault version part.now }
{
    if part.len() < coedge_head(version) {
        return Some(Fault::Blocks);
    }
    if !(2..=COEDGE_POINTS).contains(&coedge_points(version, part)) {
        return Some(Fault::PointCount);
    }
    if part.len() < coedge_size(version, part) {
        return Some(Fault::Blocks);
    }
    None
}

// Of a ring block.
fn block_fault(version: u8, block: &[u8]) -> Option<Fault>
    ensures { fault_number result ≡ block_fault version block.now }
{
    if block.is_empty() {
        return Some(Fault::Blocks);
    }
    for part in coedge_parts(version, block) {
        if let Some(fault) = coedge_fault(version, part) {
            return Some(fault);
        }
    }
    None
}

// Of a sheet, behind its first eight bytes.
pub(crate) fn layout_fault(s: &[u8]) -> Option<Fault>
    ensures { fault_number result ≡ layout_fault s.now }
{
    let mut filled = head_size(kind_of(s));
    if s.len() < filled {
        return Some(Fault::Blocks);
    }
    for block in ring_blocks(s) {
        if let Some(fault) = block_fault(version_of(s), block) {
            return Some(fault);
        }
        filled += block.len();
    }
    if filled < s.len() {
        Some(Fault::Blocks)
    } else {
        None
    }
}
