// The lines of a listing: one key=value each, a fixed key before each number.
#![tactic(auto)]

ghost use Rattle.listing.specs.Listed.{Between};

use listing::{Entry, Heading};
use measures::Measures;
use std::io;
use std::io::{Read, Write};

// The file's length, the preamble's numbers, and the number of packets.
fn print_heading<W: Write>(out: &mut W, h: Heading) -> io::Result<()> {
    writeln!(out, "bytes={}", h.bytes)?;
    writeln!(out, "ds={}", h.ds)?;
    writeln!(out, "cs={}", h.cs)?;
    writeln!(out, "hppp={}", h.hppp)?;
    writeln!(out, "vppp={}", h.vppp)?;
    writeln!(out, "chars={}", h.chars)
}

// The lines of a packet's measures behind its code.
fn print_measures<W: Write>(out: &mut W, m: Measures) -> io::Result<()> {
    writeln!(out, "tfm={}", m.tfm)?;
    writeln!(out, "dx={}", m.dx.0)?;
    writeln!(out, "dy={}", m.dy.0)?;
    writeln!(out, "w={}", m.w)?;
    writeln!(out, "h={}", m.h)?;
    writeln!(out, "hoff={}", m.hoff)?;
    writeln!(out, "voff={}", m.voff)
}

// The twelve lines of a packet.
fn print_entry<W: Write>(out: &mut W, e: Entry) -> io::Result<()> {
    writeln!(out, "at={}", e.at)?;
    writeln!(out, "code={}", e.m.code)?;
    writeln!(out, "form={}", e.form)?;
    writeln!(out, "dyn={}", e.f)?;
    writeln!(out, "first={}", u8::from(e.black))?;
    print_measures(out, e.m)
}

// The packets from a place on, in file order.
fn print_packets<W: Write>(out: &mut W, font: &[u8], first: usize) -> io::Result<()>
    requires { Between font.now first }
{
    let mut at = first;
    while let Some((e, to)) = listing::next_packet(font, at) {
        print_entry(out, e)?;
        at = to;
    }
    Ok(())
}

// The whole listing of a font; of a refused one its refusal and its place, and nothing else.
#[tactic(auto, using(listing::proofs::NextLaws::starts_on))]
pub fn print_listing<W: Write>(out: &mut W, font: &[u8]) -> io::Result<()> {
    match listing::list_font(font) {
        Ok((h, first)) => {
            print_heading(out, h)?;
            print_packets(out, font, first)
        }
        Err(x) => {
            writeln!(out, "refusal={}", x.refusal.number())?;
            writeln!(out, "at={}", x.place)
        }
    }
}

// The listing of the font that a reader gives. A byte more than a font may have is read, so that a longer file is refused, and none is cut off.
pub fn list_from<R: Read, W: Write>(reader: &mut R, out: &mut W) -> io::Result<()> {
    // Kept: fixed room, since nothing here allocates.
    let mut font = [0u8; 65537];
    print_listing(out, lines::read_into(reader, &mut font)?)
}
