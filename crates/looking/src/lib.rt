// A character looked at: the font of a path is read, and the character drawn as rows of text or as a plain PBM.
#![tactic(auto)]

ghost use Rattle.std.specs.Prelude.{◌<◌};

use measures::Measures;
use refusals::{Refusal, Refused};
use std::fs::File;
use std::io::Write;
use std::rt::Files;
use std::{io, str};

// How a character is shown.
#[derive(Clone, Copy)]
enum Picture {
    Text,
    Pbm,
}

// How to use the program, in a line.
fn say_usage<E: Write>(err: &mut E) -> io::Result<()> {
    err.write_all(b"usage: look FONT CODE [pbm]\n")
}

// The code from 0 to 255 that a text of decimal digits names. (`parse` alone would take a sign too.)
fn code_of(text: &[u8]) -> Option<usize> {
    if !text.iter().all(|c| c.is_ascii_digit()) {
        return None;
    }
    let code: u8 = str::from_utf8(text).ok()?.parse().ok()?;
    Some(usize::from(code))
}

// Each pixel spelled in its place as one of two characters.
fn spell(pixels: &mut [u8], black: u8, white: u8) {
    for p in pixels {
        *p = if *p == 1 { black } else { white };
    }
}

// A text in lines of w bytes, the last one as long as what is left.
fn print_rows<O: Write>(out: &mut O, text: &[u8], w: usize) -> io::Result<()>
    requires { 0 < w }
{
    for row in text.chunks(w) {
        out.write_all(row)?;
        out.write_all(b"\n")?;
    }
    Ok(())
}

// Rows of stars and points.
fn print_text<O: Write>(out: &mut O, pixels: &mut [u8], w: u64) -> io::Result<()>
    requires { 0 < w }
{
    spell(pixels, b'*', b'.');
    print_rows(out, pixels, w as usize)
}

// A plain PBM: its lines have at most 70 digits.
fn print_pbm<O: Write>(out: &mut O, pixels: &mut [u8], w: u64, h: u64) -> io::Result<()> {
    out.write_all(b"P1\n")?;
    writeln!(out, "{w} {h}")?;
    spell(pixels, b'1', b'0');
    print_rows(out, pixels, 70)
}

// Kept: the two outputs stay two parameters. A struct of them would be unpacked again at each line.
// The picture of drawn pixels; that there are none is told in a line. (A buffer of 65,536 bytes holds all that are drawn.)
fn print_picture<O: Write, E: Write>(
    m: Measures,
    code: usize,
    pixels: &mut [u8],
    picture: Picture,
    out: &mut O,
    err: &mut E,
) -> io::Result<()> {
    let w = sign::magnitude(m.w);
    let h = sign::magnitude(m.h);
    if w == 0 {
        return writeln!(err, "look: no pixels in character {code}");
    }
    let Some(pixels) = pixels.get_mut(..lines::area(w, h)) else {
        return Ok(());
    };
    match picture {
        Picture::Text => print_text(out, pixels, w),
        Picture::Pbm => print_pbm(out, pixels, w, h),
    }
}

// Why nothing is drawn, in a line: that the font lacks the code is said in words.
fn say_refused<E: Write>(err: &mut E, x: Refused, code: usize) -> io::Result<()> {
    match x.refusal {
        Refusal::NoSuchCode => writeln!(err, "look: the font has no character {code}"),
        refusal => writeln!(
            err,
            "look: the font is refused, number {} of document 01, at byte {}",
            refusal.number(),
            x.place
        ),
    }
}

// A code of a font drawn and printed.
fn show<O: Write, E: Write>(
    font: &[u8],
    code: usize,
    picture: Picture,
    out: &mut O,
    err: &mut E,
) -> io::Result<()> {
    // Kept: fixed room, since nothing here allocates.
    let mut pixels = [0u8; 65536];
    let buf: &mut [u8] = &mut pixels;
    let drawn = draw::draw(font, code, buf);
    match drawn {
        Ok(m) => print_picture(m, code, buf, picture, out, err),
        Err(x) => say_refused(err, x, code),
    }
}

// A line about a path.
fn say_path<E: Write>(err: &mut E, words: &[u8], path: &[u8]) -> io::Result<()> {
    err.write_all(words)?;
    err.write_all(path)?;
    err.write_all(b"\n")
}

// The file of a path, which std takes as text.
fn open<R: Files>(rt: &R, path: &[u8]) -> Option<R::File> {
    let name = str::from_utf8(path).ok()?;
    File::open(rt, name).ok()
}

// The character of a code that a text names, in the font of a path. A byte more than a font may have is read: no font is cut off.
// Its room is made first: where nothing is read, it is not for lack of memory. A read that fails later is an error, and nothing is drawn.
fn look<R: Files, O: Write, E: Write>(
    rt: &R,
    path: &[u8],
    text: &[u8],
    picture: Picture,
    out: &mut O,
    err: &mut E,
) -> io::Result<()> {
    let Some(code) = code_of(text) else {
        return err.write_all(b"look: a code is a number from 0 to 255\n");
    };
    let Some(mut file) = open(rt, path) else {
        return say_path(err, b"look: cannot open ", path);
    };
    // Kept: fixed room, since nothing here allocates.
    let mut font = [0u8; 65537];
    let (n, read) = lines::read_full(&mut file, &mut font);
    if n == 0 {
        return say_path(err, b"look: nothing to read in ", path);
    }
    read?;
    show(&font[..n], code, picture, out, err)
}

// The program with so many arguments, its own name among them: a path, a code and, if a third is there, pbm.
pub fn run<R: Files, O: Write, E: Write>(
    rt: &R,
    count: usize,
    path: &[u8],
    code: &[u8],
    word: &[u8],
    out: &mut O,
    err: &mut E,
) -> io::Result<()> {
    match (count, word) {
        (3, _) => look(rt, path, code, Picture::Text, out, err),
        (4, b"pbm") => look(rt, path, code, Picture::Pbm, out, err),
        _ => say_usage(err),
    }
}
