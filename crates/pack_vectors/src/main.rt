// The packer run on outside cases. Standard input holds cases, each behind one byte. Behind 1 stands a bitmap to pack: eight measures
// of eight bytes each, the room and the length in four bytes each, and the bitmap; its line is `ok LENGTH MARK` or `refuse NUMBER
// PLACE`. Behind any other byte stands a font, after its length in four bytes: each code that it has is drawn and packed again, and
// its line is `CODE ok LENGTH MARK` or `CODE refuse NUMBER PLACE`. At the end of a line stands `touched` if a byte was written that
// must stay. A case that is cut off, or that has more room than the program's buffer, gets the line `bad case`.
#![tactic(auto)]

ghost use Rattle.std.specs.Prelude.{◌≤◌};

use cases::{Case, Cases};
use escapement::Scaled;
use measures::Measures;
use refusals::Refused;
use std::io;
use std::io::Write;

// The bytes before a bitmap: the kind, eight measures of eight bytes, the room and the length.
const BITMAP_HEAD: usize = 73;

// The bytes before a font: the kind and the length.
const FONT_HEAD: usize = 5;

// The line of an answer.
fn print_line<W: Write>(
    out: &mut W,
    packed: Result<usize, Refused>,
    bytes: &[u8],
) -> io::Result<()> {
    match packed {
        Ok(n) => {
            write!(out, "ok {n}")?;
            lines::print_marked(out, bytes, n)?;
        }
        Err(x) => {
            write!(out, "{x}")?;
            lines::print_touched(out, bytes)?;
        }
    }
    out.write_all(b"\n")
}

// A bitmap packed into a buffer of so much room.
fn pack_one<W: Write>(out: &mut W, bitmap: &[u8], m: Measures, room: usize) -> io::Result<()> {
    let mut bytes = lines::old_bytes();
    if lines::ROOM < room {
        return lines::print_bad(out);
    }
    let packed = pack::pack(bitmap, m, &mut bytes[..room]);
    print_line(out, packed, &bytes)
}

// The pixels of a drawn code, packed again.
fn pack_again<W: Write>(out: &mut W, pixels: &[u8], code: usize, m: Measures) -> io::Result<()> {
    let n = lines::area(sign::magnitude(m.w), sign::magnitude(m.h));
    let Some(bitmap) = pixels.get(..n) else {
        return Ok(());
    };
    write!(out, "{code} ")?;
    pack_one(out, bitmap, m, lines::ROOM)
}

// A code of a font drawn, and packed again.
fn repack<W: Write>(out: &mut W, font: &[u8], code: usize) -> io::Result<()> {
    let mut pixels = lines::old_bytes();
    match draw::draw(font, code, &mut pixels) {
        Ok(m) => pack_again(out, &pixels, code, m),
        Err(_) => Ok(()),
    }
}

// Each code of a font.
fn repack_each<W: Write>(out: &mut W, font: &[u8]) -> io::Result<()> {
    for code in 0..256 {
        repack(out, font, code)?;
    }
    Ok(())
}

// A bitmap packed; its measures and the room stand behind the first byte of its head.
fn bitmap_case<W: Write>(out: &mut W, fields: &[u8], bitmap: &[u8]) -> io::Result<()> {
    let ([code, w, h, tfm, dx, dy, hoff, voff, [a, b, c, d, ..]], _) = fields.as_chunks::<8>()
    else {
        return lines::print_bad(out);
    };
    let m = Measures {
        code: i64::from_be_bytes(*code),
        w: i64::from_be_bytes(*w),
        h: i64::from_be_bytes(*h),
        tfm: i64::from_be_bytes(*tfm),
        dx: Scaled(i64::from_be_bytes(*dx)),
        dy: Scaled(i64::from_be_bytes(*dy)),
        hoff: i64::from_be_bytes(*hoff),
        voff: i64::from_be_bytes(*voff),
    };
    let room = u32::from_be_bytes([*a, *b, *c, *d]) as usize;
    pack_one(out, bitmap, m, room)
}

// How many bytes the head of a case has that begins with this byte.
// Kept: the kind of a case is a byte of standard input.
fn head_of(kind: u8) -> usize
    ensures { 4 ≤ result }
{
    if kind == 1 { BITMAP_HEAD } else { FONT_HEAD }
}

// Each case.
fn pack_each<W: Write>(out: &mut W, s: &[u8]) -> io::Result<()> {
    for case in Cases::new(s, head_of) {
        let Ok(Case { head, bytes }) = case else {
            return lines::print_bad(out);
        };
        match head.split_first() {
            Some((1, fields)) => bitmap_case(out, fields, bytes)?,
            _ => repack_each(out, bytes)?,
        }
    }
    Ok(())
}

// All cases of standard input.
fn main(rt: HostRuntime) -> io::Result<()> {
    let mut room = cases::empty::<524288>();
    let cases = lines::read_into(&mut rt.reader(), &mut room)?;
    pack_each(&mut io::writer(&rt), cases)
}
