// What the programs print: the mark that stands for many bytes; and the buffer that they lend.
#![tactic(auto)]

ghost use Rattle.std.specs.Prelude.{◌≡◌, ◌<◌, ◌≤◌, length, take, OnOk, IfOk};
ghost use Rattle.std.specs.Io.KnownBytes.{Consumes, IsAtEnd};
ghost use Rattle.lines.specs.Marks.{marked, area_of};

use std::io;
use std::io::{Read, Write};

// What stands in a lent buffer before a call.
const OLD: u8 = 170;

// The most room of a case.
pub const ROOM: usize = 65600;

// The mark over bytes: begin with 1, and for each byte b make it (mark * 257 + b) mod 65,521.
#[tactic(auto, using(crate::proofs::MarkLaws::marking_start, crate::proofs::MarkLaws::marking_step, crate::proofs::MarkLaws::marking_end))]
pub fn mark_of(bytes: &[u8]) -> usize
    ensures { result ≡ marked bytes.now }
{
    let mut mark: usize = 1;
    for b in bytes {
        mark = (mark * 257 + usize::from(*b)) % 65521;
    }
    mark
}

// A buffer to lend, the old byte everywhere. Lending a part of it needs its length only.
// Kept: fixed room, since nothing here allocates.
pub fn old_bytes() -> [u8; ROOM]
    ensures { 65600 ≡ length result }
{
    [OLD; ROOM]
}

// Says so if a byte is not the old one.
pub fn print_touched<W: Write>(out: &mut W, bytes: &[u8]) -> io::Result<()> {
    if bytes.iter().any(|b| *b != OLD) {
        return out.write_all(b" touched");
    }
    Ok(())
}

// The mark of the first n bytes, and whether more was written.
pub fn print_marked<W: Write>(out: &mut W, bytes: &[u8], n: usize) -> io::Result<()> {
    let Some((written, left)) = bytes.split_at_checked(n) else {
        return Ok(());
    };
    write!(out, " {}", mark_of(written))?;
    print_touched(out, left)
}

// The pixels of w by h, and 0 where w or h is above 65,536.
// (Kept: no pixels are printed then; an Option would be turned into 0 at each call.)
#[tactic(auto, unfolding(crate::specs::Marks::area_of))]
pub fn area(w: u64, h: u64) -> usize
    ensures { result ≡ area_of w h }
{
    if w <= 65536 && h <= 65536 {
        return (w * h) as usize;
    }
    0
}

// A buffer filled from a reader as far as its input goes: how many bytes came, and how the reading ended.
pub fn read_full<R: Read>(reader: &mut R, buf: &mut [u8]) -> (usize, io::Result<()>)
    ensures within { result.0 ≤ length buf.new }
    ensures bytes { Consumes (R.remaining reader.old) (R.remaining reader.new) (take result.0 buf.new) }
    ensures end { OnOk result.1 (result.0 < length buf.new → IsAtEnd (R.remaining reader.new)) }
{
    let mut n: usize = 0;
    // Kept: it counts what came, and a turn's step is what the reader gave.
    while n < buf.len() {
        match reader.read(&mut buf[n..]) {
            Ok(0) => return (n, Ok(())),
            Ok(k) => n += k,
            Err(e) => return (n, Err(e)),
        }
    }
    (n, Ok(()))
}

// The bytes of a reader's input, as far as a buffer for them goes; an error of the reading is the answer.
pub fn read_into<'a, R: Read>(reader: &mut R, buf: &'a mut [u8]) -> io::Result<&'a [u8]>
    ensures bytes { IfOk result (λ s. Consumes (R.remaining reader.old) (R.remaining reader.new) s.now) }
    ensures end { IfOk result (λ s. length s.now < length buf.old → IsAtEnd (R.remaining reader.new)) }
{
    let (n, read) = read_full(reader, buf);
    read?;
    Ok(&buf[..n])
}

// The line of a case that is cut short, or that asks for too much room.
pub fn print_bad<W: Write>(out: &mut W) -> io::Result<()> {
    out.write_all(b"bad case\n")
}
