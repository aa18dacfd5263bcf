// What a program reads of a file, by whole buffers, and what it says of a file that cannot be read.
ghost use Rattle.std.specs.Prelude.{◌≡◌, ◌<◌, List, ℕ, Ok, IfOk, OnOk, Err, IsErrOf, MatchResult, is_ok, length, take, drop};
ghost use Rattle.std.specs.Io.{ReadsAtMost};
ghost use Rattle.std.specs.Io.KnownBytes.{Consumes, IsAtEnd, ReadConsumes};
ghost use Rattle.buffer.specs.Page.{laid};
ghost use Rattle.cases.specs.Reading.{Gives, Given, unless, full_or_broken};
ghost use Rattle.cases.specs.Record.{head_of};

use crate::record::{HEAD_SIZE, Head, RecordError, head_of};
use std::io::{self, Read};

// The most bytes that are asked of a file at once.
const ROOM: usize = 4096;

// Reads once. The bytes behind those that the file gave stay as they were, and so do all where it failed, which std
// does not say of a read.
fn read_part<R: Read>(file: &mut R, part: &mut [u8]) -> io::Result<usize>
    ensures bound { ReadsAtMost result part.new }
    ensures bytes { ReadConsumes (R.remaining file.old) (R.remaining file.new) result part.new }
    ensures rest { MatchResult result (λ n. drop n part.new ≡ drop n part.old) (λ _. part.new ≡ part.old) }
{
    let mut room = [0u8; ROOM];
    let asked = part.len().min(ROOM);
    let n = file.read(&mut room[..asked])?;
    part[..n].copy_from_slice(&room[..n]);
    Ok(n)
}

// Reads until the buffer is full or the file ends. Answers how many bytes it put at the buffer's start; those behind
// them stay as they were.
#[tactic(auto, using(crate::proofs::Buffers::read_more, crate::proofs::Buffers::rest_kept))]
pub fn read_full<R: Read>(file: &mut R, buffer: &mut [u8]) -> io::Result<usize>
    ensures bound { ReadsAtMost result buffer.new }
    ensures bytes { IfOk result (λ n. Consumes (R.remaining file.old) (R.remaining file.new) (take n buffer.new)) }
    ensures end { IfOk result (λ n. n < length buffer.new → IsAtEnd (R.remaining file.new)) }
    ensures told { (given : Given (length buffer.old) (R.remaining file.old) (R.remaining file.new))
        × (result ≡ unless (λ e. e) given.fault (Ok (length given.bytes)))
        × (buffer.new ≡ laid 0 given.bytes buffer.old) }
{
    let mut n = 0;
    // No `for`: a turn goes on by as many bytes as the file gave, and it ends where the file gives none.
    while n < buffer.len() {
        match read_part(file, &mut buffer[n..])? {
            0 => break,
            more => n += more,
        }
    }
    Ok(n)
}

// Reads the whole buffer. Where the file ends before, the record is broken.
pub fn read_whole<R: Read>(file: &mut R, buffer: &mut [u8]) -> Result<(), RecordError>
    ensures bytes { OnOk result (Consumes (R.remaining file.old) (R.remaining file.new) buffer.new) }
    ensures broken { IsErrOf result RecordError.Broken → IsAtEnd (R.remaining file.new) }
    ensures told { (given : Given (length buffer.old) (R.remaining file.old) (R.remaining file.new))
        × (result ≡ unless RecordError.Io given.fault (full_or_broken (length buffer.old) given.bytes))
        × (buffer.new ≡ laid 0 given.bytes buffer.old) }
{
    let n = read_full(file, buffer).map_err(RecordError::Io)?;
    if n < buffer.len() {
        return Err(RecordError::Broken);
    }
    Ok(())
}

// Reads the head of the next record; none where the file has ended.
pub fn read_head<R: Read>(file: &mut R) -> Result<Option<Head>, RecordError>
    ensures ok { IfOk result (λ head. (bytes : List ℕ)
        × Gives 12 (R.remaining file.old) (R.remaining file.new) bytes × (head_of bytes ≡ Ok head)) }
    ensures broken { IsErrOf result RecordError.Broken → (bytes : List ℕ)
        × Gives 12 (R.remaining file.old) (R.remaining file.new) bytes × (head_of bytes ≡ Err RecordError.Broken) }
    ensures told { (given : Given 12 (R.remaining file.old) (R.remaining file.new))
        × (result ≡ unless RecordError.Io given.fault (head_of given.bytes)) }
{
    let mut bytes = [0u8; HEAD_SIZE];
    let n = read_full(file, &mut bytes).map_err(RecordError::Io)?;
    head_of(&bytes[..n])
}

// Whether a file was run; else it says on standard error what failed.
pub fn is_run(rt: &impl Eprint, name: &str, run: io::Result<()>) -> bool
    ensures { result ≡ is_ok run }
{
    if let Err(error) = run {
        let _ = eprintln!(rt; "{name}: {error}");
    }
    run.is_ok()
}
