// The drawer run on outside cases: standard input holds fonts, each behind the first and the last code to draw, the room and its length
// in four bytes each; a line is printed for each code, `ok CODE W H TFM DX DY HOFF VOFF MARK` or `refuse NUMBER PLACE`, and at its end
// `touched` if a byte was written that must stay. A case that is cut off, or that has more room than the program's buffer, gets the line
// `bad case`.
#![tactic(auto)]

use cases::{Case, Cases};
use measures::Measures;
use refusals::Refused;
use std::io;
use std::io::Write;

// The measures.
fn print_measures<W: Write>(out: &mut W, m: Measures) -> io::Result<()> {
    write!(out, "ok {} {} {} {}", m.code, m.w, m.h, m.tfm)?;
    write!(out, " {} {} {} {}", m.dx.0, m.dy.0, m.hoff, m.voff)
}

// The line of an answer.
fn print_line<W: Write>(
    out: &mut W,
    drawn: Result<Measures, Refused>,
    pixels: &[u8],
) -> io::Result<()> {
    match drawn {
        Ok(m) => {
            print_measures(out, m)?;
            lines::print_marked(
                out,
                pixels,
                lines::area(sign::magnitude(m.w), sign::magnitude(m.h)),
            )?;
        }
        Err(x) => {
            write!(out, "{x}")?;
            lines::print_touched(out, pixels)?;
        }
    }
    out.write_all(b"\n")
}

// A code of a font, drawn into a buffer of so much room.
fn draw_one<W: Write>(out: &mut W, font: &[u8], code: usize, room: usize) -> io::Result<()> {
    let mut pixels = lines::old_bytes();
    if lines::ROOM < room {
        return lines::print_bad(out);
    }
    let drawn = draw::draw(font, code, &mut pixels[..room]);
    print_line(out, drawn, &pixels)
}

// The codes from first to last, and the last alone if it is below the first.
fn draw_codes<W: Write>(
    out: &mut W,
    font: &[u8],
    first: usize,
    last: usize,
    room: usize,
) -> io::Result<()> {
    for code in first..last {
        draw_one(out, font, code, room)?;
    }
    draw_one(out, font, last, room)
}

// A font; the codes to draw and the room stand in its head.
fn draw_case<W: Write>(out: &mut W, case: Case) -> io::Result<()> {
    let ([first, last, room, ..], _) = case.head.as_chunks::<4>() else {
        return lines::print_bad(out);
    };
    let first = u32::from_be_bytes(*first) as usize;
    let last = u32::from_be_bytes(*last) as usize;
    let room = u32::from_be_bytes(*room) as usize;
    draw_codes(out, case.bytes, first, last, room)
}

// Each case.
fn draw_each<W: Write>(out: &mut W, s: &[u8]) -> io::Result<()> {
    for case in Cases::new(s, |_| 16) {
        let Ok(case) = case else {
            return lines::print_bad(out);
        };
        draw_case(out, case)?;
    }
    Ok(())
}

// All cases of standard input.
fn main(rt: HostRuntime) -> io::Result<()> {
    let mut room = cases::empty::<524288>();
    let cases = lines::read_into(&mut rt.reader(), &mut room)?;
    draw_each(&mut io::writer(&rt), cases)
}
