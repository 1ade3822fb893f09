// Packing a bitmap with its measures into a lent buffer: the public call.
#![tactic(auto)]

ghost use Prim.Native.Nat.{◌+◌, ◌*◌, ◌≤◌};
ghost use Rattle.std.specs.Prelude.{◌≡◌, true, ◌++◌, length, take, drop};
ghost use Rattle.format.specs.Limits.{within_limits, is_code};
ghost use Rattle.format.specs.Refusals.{told};
ghost use Rattle.format.specs.Choice.{first_black};
ghost use Rattle.format.specs.Packing.{all_pixels, pack_answer, pack_buffer};
ghost use Rattle.measures.specs.Said.{said};
ghost use Rattle.part.specs.Parts.{First};
ghost use Rattle.pack.specs.Answer.{in_numbers};
ghost use Rattle.pack.specs.Bitmaps.{Bitmap, raster_for};

use bit_bytes::Pixels;
use measures::Measures;
use packed::Factor;
use part::Part;
use refusals::{Refusal, Refused};

// w and h are both 0, or both at least 1 with w * h at most 65,536.
fn within_limits(w: i64, h: i64) -> bool
    ensures { result ≡ within_limits w h }
{
    if w < 0 {
        return false;
    }
    if h < 0 {
        return false;
    }
    packet::in_limits(sign::magnitude(w), sign::magnitude(h))
}

// Each byte is 0 or 1: the largest is. It does not leave early, so that many bytes are taken side by side.
fn all_pixels(b: &[u8]) -> bool
    ensures { result ≡ all_pixels b.now }
{
    let mut top: u8 = 0;
    for &x in b {
        top = top.max(x);
    }
    top < 2
}

// A code is from 0 to 255.
fn is_code(code: i64) -> bool
    ensures { result ≡ is_code code }
{
    if code < 0 {
        return false;
    }
    sign::magnitude(code) < 256
}

// The first run is black; for f = 14 the bit is 0. (Kept: 14 is the number that a packet's flag has for bits.)
fn first_black(b: &[u8], f: usize) -> bool
    ensures { result ≡ first_black f b.now }
{
    f != 14 && b.first() == Some(&1)
}

// The raster bytes for f, from the byte at `at` on.
fn write_raster(b: walk::Bitmap, f: usize, part: &mut Part, buf: &mut [u8], at: usize) -> usize
    requires { (f ≤ 14) × (b.rows.w ≡ 0 → f ≡ 14) × (all_pixels b.rows.pixels.now ≡ true) × First b.rows.pixels.now b.rows.w part.old × (at + length (raster_for f b.rows.w b.h b.rows.pixels.now) ≤ length buf.old) }
    ensures value { result ≡ at + length (raster_for f b.entry.rows.w b.entry.h b.entry.rows.pixels.now) }
    ensures buf_after { buf.new ≡ take at buf.old ++ (raster_for f b.entry.rows.w b.entry.h b.entry.rows.pixels.now ++ drop result buf.old) }
{
    match Factor::new(f) {
        None => bit_bytes::write_bits(
            Pixels {
                bytes: b.rows.pixels,
            },
            buf,
            at,
        ),
        Some(f) => run_bytes::write_runs(b, f, part, buf, at),
    }
}

// A bitmap of pixels with a code that 01 allows: 20, then 17, or the packet.
fn pack_judged(b: walk::Bitmap, m: Measures, buf: &mut [u8]) -> Result<usize, Refused>
    requires { Bitmap b.rows.pixels.now b.rows.w b.h (said m) }
    ensures result_value { in_numbers result ≡ told (pack_answer b.entry.rows.pixels.now (said m) buf.old) }
    ensures buf_after { buf.new ≡ pack_buffer b.entry.rows.pixels.now (said m) buf.old }
{
    let mut part = Part::new();
    let chosen = size::choose(b, &mut part);
    let f = chosen.f;
    let n = chosen.bytes;
    let Some(form) = pick::pick_form(m, n) else {
        return Err(Refusal::NoForm.at(0));
    };
    let head = head::head_length(Some(form));
    if buf.len() < head + n {
        return Err(Refusal::NoRoom.at(0));
    }
    let black = first_black(b.rows.pixels, f);
    let at = head::write_head(buf, f, black, m, Some(form), n);
    Ok(write_raster(b, f, &mut part, buf, at))
}

// Any bitmap, any measures, any buffer: 18, 19, 8, 20, 17 in this order, and the buffer stays as it was; or the packet's length, with
// the packet in as many bytes of the buffer, and the bytes beyond stay.
pub fn pack(bitmap: &[u8], m: Measures, packet: &mut [u8]) -> Result<usize, Refused>
    ensures result_value { in_numbers result ≡ told (pack_answer bitmap.now (said m) packet.old) }
    ensures packet_after { packet.new ≡ pack_buffer bitmap.now (said m) packet.old }
{
    if !within_limits(m.w, m.h) {
        return Err(Refusal::BitmapOutsideLimits.at(0));
    }
    let w = sign::magnitude(m.w) as usize;
    let h = sign::magnitude(m.h) as usize;
    if bitmap.len() != w * h {
        return Err(Refusal::BadBitmap.at(0));
    }
    let rows = walk::Rows { pixels: bitmap, w };
    let b = walk::Bitmap { rows, h };
    if !all_pixels(bitmap) {
        return Err(Refusal::BadBitmap.at(0));
    }
    if !is_code(m.code) {
        return Err(Refusal::BadCode.at(0));
    }
    pack_judged(b, m, packet)
}
