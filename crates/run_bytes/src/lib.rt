// The raster bytes of a count list, written into a lent buffer.
#![tactic(auto)]

ghost use Rattle.std.specs.Prelude.{◌+◌, ◌*◌, ◌≤◌, ◌<◌, ◌≡◌, ◌∷◌, [], ◌++◌, All, length, take, drop};
ghost use Rattle.format.specs.Rasters.{run, writings, rows};
ghost use Rattle.format.specs.Counts.{before, counts};
ghost use Rattle.format.specs.Choice.{halves};
ghost use Rattle.walk.specs.Walk.{begin, items_left};
ghost use Rattle.part.specs.Parts.{kept, Small, Kept, First};
ghost use Rattle.run_bytes.specs.Put.{Room, Put};

use packed::Factor;
use part::{Part, Run};
use walk::{Bitmap, Rows};

// The repeat m that stands before a run, 0 for none.
fn write_repeat(buf: &mut [u8], i: usize, f: Factor, m: usize) -> usize
    requires { (m ≤ 65536) × Room buf.old i (writings f.n (before m [])) }
    ensures { Put buf.old i (writings f.n (before m [])) result buf.new }
{
    match m {
        0 => i,
        1 => {
            emit::put_nybble(buf, i, 15);
            i + 1
        }
        _ => {
            emit::put_nybble(buf, i, 14);
            emit::write_number(buf, i + 1, f, m)
        }
    }
}

// A run with the repeat before it.
fn write_run(buf: &mut [u8], i: usize, f: Factor, r: Run) -> usize
    requires { Small r × Room buf.old i (writings f.n (before r.repeat (run r.length ∷ []))) }
    ensures { Put buf.old i (writings f.n (before r.repeat (run r.length ∷ []))) result buf.new }
{
    let j = write_repeat(buf, i, f, r.repeat as usize);
    emit::write_number(buf, j, f, r.length as usize)
}

// The runs of a part.
fn write_part(buf: &mut [u8], i: usize, f: Factor, runs: &[Run]) -> usize
    requires { All Small runs.now × Room buf.old i (writings f.n (kept runs.now)) }
    ensures { Put buf.old i (writings f.n (kept runs.now)) result buf.new }
{
    let mut to = i;
    for r in runs {
        to = write_run(buf, to, f, *r);
    }
    to
}

// The nybbles of the whole count list from the nybble at i on, part after part.
// Kept: the loop of size::sizes, as said there.
fn write_nybbles(rows: Rows, f: Factor, part: &mut Part, buf: &mut [u8], i: usize) -> usize
    requires { Kept rows.pixels.now rows.w begin part.old × Room buf.old i (writings f.n (items_left rows.pixels.now rows.w begin)) }
    ensures { Put buf.old i (writings f.n (items_left rows.entry.pixels.now rows.entry.w begin)) result buf.new }
{
    let mut to = i;
    loop {
        to = write_part(buf, to, f, part.runs());
        if !part.is_full() {
            return to;
        }
        part.walk_on(rows);
    }
}

// The raster bytes for f, from the byte at `at` on; a spare half byte is zero. It answers the place behind.
pub fn write_runs(b: Bitmap, f: Factor, part: &mut Part, buf: &mut [u8], at: usize) -> usize
    requires { (0 < b.rows.w) × First b.rows.pixels.now b.rows.w part.old × (at + length (halves (writings f.n (counts (rows b.rows.w b.h b.rows.pixels.now)))) ≤ length buf.old) }
    ensures value { result ≡ at + length (halves (writings f.n (counts (rows b.entry.rows.w b.entry.h b.entry.rows.pixels.now)))) }
    ensures buf_after { buf.new ≡ take at buf.old ++ (halves (writings f.n (counts (rows b.entry.rows.w b.entry.h b.entry.rows.pixels.now))) ++ drop result buf.old) }
{
    part.first(b.rows);
    write_nybbles(b.rows, f, part, buf, 2 * at).div_ceil(2)
}
