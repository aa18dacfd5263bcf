// What the program reads of a file, by whole buffers.
ghost use Rattle.std.specs.Prelude.{◌≡◌, ◌<◌, List, ℕ, Ok, IfOk, OnOk, Err, IsErrOf, length, take};
ghost use Rattle.std.specs.Io.{ReadsAtMost};
ghost use Rattle.std.specs.Io.KnownBytes.{Consumes, IsAtEnd};
ghost use Rattle.cases.specs.Reading.{Gives};
ghost use Rattle.cases.specs.Record.{head_of};

use cases::{HEAD_SIZE, Head, RecordError, head_of};
use std::io::{self, Read};

// Reads until the buffer is full or the file ends. Answers how many bytes it put at the buffer's start.
#[tactic(auto, using(cases::proofs::Buffers::read_more))]
fn read_full<R: Read>(file: &mut R, buffer: &mut [u8]) -> io::Result<usize>
    ensures bound { ReadsAtMost result buffer.new }
    ensures bytes { IfOk result (λ n. Consumes (R.remaining file.old) (R.remaining file.new) (take n buffer.new)) }
    ensures end { IfOk result (λ n. n < length buffer.new → IsAtEnd (R.remaining file.new)) }
{
    let mut n = 0;
    // No `for`: a turn goes on by as many bytes as the file gave, and it ends where the file gives none.
    while n < buffer.len() {
        match file.read(&mut buffer[n..])? {
            0 => break,
            more => n += more,
        }
    }
    Ok(n)
}

// Reads the whole buffer.
pub(crate) fn read_whole<R: Read>(file: &mut R, buffer: &mut [u8]) -> Result<(), RecordError>
    ensures bytes { OnOk result (Consumes (R.remaining file.old) (R.remaining file.new) buffer.new) }
    ensures broken { IsErrOf result RecordError.Broken → IsAtEnd (R.remaining file.new) }
{
    let n = read_full(file, buffer).map_err(RecordError::Io)?;
    if n < buffer.len() {
        return Err(RecordError::Broken);
    }
    Ok(())
}

// Reads the head of the next record; none where the file has ended.
pub(crate) fn read_head<R: Read>(file: &mut R) -> Result<Option<Head>, RecordError>
    ensures ok { IfOk result (λ head. (bytes : List ℕ)
        × Gives 12 (R.remaining file.old) (R.remaining file.new) bytes × (head_of bytes ≡ Ok head)) }
    ensures broken { IsErrOf result RecordError.Broken → (bytes : List ℕ)
        × Gives 12 (R.remaining file.old) (R.remaining file.new) bytes × (head_of bytes ≡ Err RecordError.Broken) }
{
    let mut bytes = [0u8; HEAD_SIZE];
    let n = read_full(file, &mut bytes).map_err(RecordError::Io)?;
    head_of(&bytes[..n])
}
