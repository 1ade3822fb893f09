// What is listed of a font: its heading, and its packets in file order, one at a time.
#![tactic(auto)]

ghost use Rattle.std.specs.Prelude.{◌≡◌};
ghost use Rattle.format.specs.Refusals.{told};
ghost use Rattle.format.specs.Listing.{heading_answer};
ghost use Rattle.packet.specs.Standing.{StandsAt};
ghost use Rattle.listing.specs.Listed.{in_numbers, Counted, IsHeading, Starts, IsEntry, Between, IsNext};

use measures::Measures;
use packet::{Form, Outline, Piece};
use refusals::Refused;

// The file's length, the preamble's numbers, and the number of packets.
#[derive(Clone, Copy, Debug, PartialEq, Eq)]
pub struct Heading {
    pub bytes: usize,
    pub ds: i64,
    pub cs: i64,
    pub hppp: i64,
    pub vppp: i64,
    pub chars: usize,
}

// A packet: the place of its flag, its form, f and black bit, and its measures.
#[derive(Clone, Copy, Debug, PartialEq, Eq)]
pub struct Entry {
    pub at: usize,
    pub form: Form,
    pub f: usize,
    pub black: bool,
    pub m: Measures,
}

// The heading of an accepted font with so many packets.
fn heading_of(font: &[u8], chars: usize) -> Heading
    requires { Counted font.now chars }
    ensures { IsHeading font.now result }
{
    let at = usize::from(font[2]) + 3;
    let ds = fields::signed_at(font, at, 4);
    let cs = fields::signed_at(font, at + 4, 4);
    let hppp = fields::signed_at(font, at + 8, 4);
    let vppp = fields::signed_at(font, at + 12, 4);
    Heading {
        bytes: font.len(),
        ds,
        cs,
        hppp,
        vppp,
        chars,
    }
}

// Any bytes: the heading and the place behind the preamble, or the font's refusal.
pub fn list_font(font: &[u8]) -> Result<(Heading, usize), Refused>
    ensures result_value { in_numbers result ≡ told (heading_answer font.now) }
    ensures starts { Starts font.now result }
{
    let n = font::check(font)?;
    Ok((heading_of(font, n), find::first_place(font)))
}

// The packet of an outline whose flag stands at `at`.
fn entry_at(font: &[u8], at: usize, x: Outline) -> Entry
    requires { StandsAt font.now at x }
    ensures { IsEntry font.now at result }
{
    let form = Form::of(usize::from(font[at]));
    let m = measures::measures_at(font, at, x);
    Entry {
        at,
        form,
        f: x.f,
        black: x.black,
        m,
    }
}

// The next packet from a place on where a piece or the ending begins, with the place behind it; or that no packet follows.
// Kept: the loop goes on at the place that each piece says, so it counts no index; what is done with a packet is not what find does.
pub fn next_packet(font: &[u8], start: usize) -> Option<(Entry, usize)>
    requires { Between font.now start }
    ensures { IsNext font.now start result }
{
    let mut at = start;
    loop {
        match pieces::piece_at(font, at) {
            Ok(Piece::Packet(x)) => return Some((entry_at(font, at, x), x.end)),
            Ok(Piece::Command(next)) => at = next,
            Ok(Piece::Last) => return None,
            Err(_) => return None,
        }
    }
}
