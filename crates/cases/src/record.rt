// What a recorded call begins with, and the longest that there is.
ghost use Rattle.std.specs.Prelude.{◌≡◌};
ghost use Rattle.cases.specs.Record.{head_of};

use crate::big_endian::u32_at;
use std::io;
use std::marker::Model;
use thiserror::Error;

pub const HEAD_SIZE: usize = 12;

pub const MOST_BYTES: usize = 40000;

pub const MOST_PLACES: usize = 6600;

// The bytes of the longest list.
pub const MOST_NUMBERS: usize = 8 * MOST_PLACES;

// Why a record has no answer: the file ends within it or it holds what no record does, or reading or writing failed.
#[derive(Clone, Copy, Debug, Error)]
pub enum RecordError {
    #[error("broken")]
    Broken,
    #[error(transparent)]
    Io(#[from] io::Error),
}

// The head of a recorded call: the sheet's length, the phase, a number, as the file has it, and the list's length.
// Neither length is above the longest.
#[derive(Clone, Copy, Debug, PartialEq, Eq)]
pub struct Head {
    pub bytes: usize,
    pub phase: u32,
    pub places: usize,
}

impl Model for Head {
    ghost use Rattle.std.specs.Prelude.{◌≤◌};
    ghost use Rattle.cases.specs.Lengths.{Lengths};

    ghost Value = { Lengths };

    ghost view = { λ h. record { bytes = h.bytes; phase = h.phase; places = h.places } };

    ghost invariant = { λ h. (h.bytes ≤ 40000) × (h.places ≤ 6600) };

    ghost inverse = { λ v. record { bytes = v.bytes; phase = v.phase; places = v.places } };
}

// The head in these bytes, which are what a file still had of it: none where the file has ended. A file that
// ends within a head is broken, and so is a length above the longest.
#[tactic(auto, unfolding(crate::specs::Record::head_of, crate::specs::Record::call_of))]
pub fn head_of(s: &[u8]) -> Result<Option<Head>, RecordError>
    ensures { result ≡ head_of s.now }
{
    if s.is_empty() {
        return Ok(None);
    }
    if s.len() < HEAD_SIZE {
        return Err(RecordError::Broken);
    }
    let bytes = u32_at(s, 0) as usize;
    let places = u32_at(s, 8) as usize;
    if MOST_BYTES < bytes || MOST_PLACES < places {
        return Err(RecordError::Broken);
    }
    Ok(Some(Head {
        bytes,
        phase: u32_at(s, 4),
        places,
    }))
}
