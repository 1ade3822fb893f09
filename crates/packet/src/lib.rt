// The fixed part of a packet, as far as a checker needs it: its fields, and the checks 4, 6, 7 and 8.
#![tactic(auto)]

ghost use Rattle.std.specs.Prelude.{◌+◌, ◌*◌, ◌≤◌, ◌<◌, ◌≡◌, length, drop};
ghost use Rattle.format.specs.Limits.{in_limits};
ghost use Rattle.format.specs.Pieces.{long};
ghost use Rattle.format.specs.Verdict.{form_of};
ghost use Rattle.packet.specs.Outlines.{form_is, narrow_form, fields_at, judged_as, outlined};

use refusals::Refusal;
use std::fmt;

// The form of a packet.
#[derive(Clone, Copy, Debug, PartialEq, Eq)]
pub enum Form {
    Short,
    Extended,
    Long,
}

impl Form {
    // The form that a flag's lower bits pick.
    #[tactic(auto, unfolding(format::specs::Verdict::form_of))]
    pub fn of(flag: usize) -> Form
        ensures { form_is result ≡ form_of flag }
    {
        match flag % 8 {
            0..=3 => Form::Short,
            4..=6 => Form::Extended,
            _ => Form::Long,
        }
    }
}

// Its word in a listing.
impl fmt::Display for Form {
    fn fmt<W: fmt::Write>(&self, f: &mut fmt::Formatter<W>) -> fmt::Result {
        f.write_str(match self {
            Form::Short => "short",
            Form::Extended => "extended",
            Form::Long => "long",
        })
    }
}

// What a packet is without its measures: f and the black bit, the code, the width and height, where its raster begins, and where
// the packet ends.
#[derive(Clone, Copy, Debug, PartialEq, Eq)]
pub struct Outline {
    pub f: usize,
    pub black: bool,
    pub code: usize,
    pub w: usize,
    pub h: usize,
    pub raster: usize,
    pub end: usize,
}

// What stands at a place: a packet; a command, with the place behind it; or the 245.
#[derive(Clone, Copy, Debug, PartialEq, Eq)]
pub enum Piece {
    Packet(Outline),
    Command(usize),
    Last,
}

// Fields as the numbers that their bytes are, not yet judged.
#[derive(Clone, Copy)]
struct Fields {
    length: u64,
    code: u64,
    w: u64,
    h: u64,
}

// The fields of a short packet, of m = 1, or an extended one, of m = 2, which stand at `at`, behind the flag b:
// (Kept: m is a number of bytes, which is added and multiplied.)
// length[m] code[1] tfm[3] dm[m] w[m] h[m] hoff[+m] voff[+m].
fn narrow_fields(s: &[u8], at: usize, b: usize, m: usize) -> Fields
    requires { (at + (6 * m + 4) ≤ length s.now) × (1 ≤ m) × (m ≤ 2) }
    ensures { (result ≡ fields_at (narrow_form m) b (drop at s.now)) × (result.length < 2147483648) }
{
    let code_at = at + m;
    let w_at = code_at + 4 + m;
    let h_at = w_at + m;
    let upper = (b % 4) as u64 * fields::values_of(m);
    let length = upper + fields::number_at(s, at, m);
    let code = fields::number_at(s, code_at, 1);
    let w = fields::number_at(s, w_at, m);
    let h = fields::number_at(s, h_at, m);
    Fields { length, code, w, h }
}

// The fields of a long packet, which stand at `at`: length, code, tfm, dx, dy, w, h, hoff, voff of four bytes each.
fn long_fields(s: &[u8], at: usize) -> Fields
    requires { at + 36 ≤ length s.now }
    ensures { result ≡ fields_at long 0 (drop at s.now) }
{
    let length = fields::number_at(s, at, 4);
    let code = fields::number_at(s, at + 4, 4);
    let w = fields::number_at(s, at + 20, 4);
    let h = fields::number_at(s, at + 24, 4);
    Fields { length, code, w, h }
}

// w and h are both 0, or both at least 1 with w * h at most 65,536.
pub fn in_limits(w: u64, h: u64) -> bool
    ensures { result ≡ in_limits w h }
{
    if w == 0 || h == 0 {
        return w == h;
    }
    if 65536 < w || 65536 < h {
        return false;
    }
    w * h <= 65536
}

// The checks 6, 4, 7 and 8 on the fields of a packet with the flag b, of whose length `fixed` bytes stand before `place`; `room` bytes stand
// from there on.
#[tactic(auto, unfolding(crate::specs::Outlines::judged_as))]
fn judged(b: usize, x: Fields, fixed: u64, place: usize, room: usize) -> Result<Piece, Refusal>
    requires { place + room < 18446744073709551616 }
    ensures { result ≡ judged_as b x fixed place room }
{
    if x.length < fixed || fields::NEGATIVE <= x.length {
        return Err(Refusal::BadLength);
    }
    let bytes = (x.length - fixed) as usize;
    if room < bytes {
        return Err(Refusal::FileEnds);
    }
    if !in_limits(x.w, x.h) {
        return Err(Refusal::OutsideLimits);
    }
    if 256 <= x.code {
        return Err(Refusal::BadCode);
    }
    Ok(Piece::Packet(Outline {
        f: b / 16,
        black: b / 8 % 2 == 1,
        code: x.code as usize,
        w: x.w as usize,
        h: x.h as usize,
        raster: place,
        end: place + bytes,
    }))
}

// The packet with the flag b and fields of m bytes, which stand at `at`: 6m + 4 bytes, of which the length counts 5m + 3.
fn narrow(s: &[u8], at: usize, b: usize, m: usize) -> Result<Piece, Refusal>
    requires { (at ≤ length s.now) × (1 ≤ m) × (m ≤ 2) }
    ensures { result ≡ outlined (narrow_form m) b at s.now }
{
    let size = 6 * m + 4;
    let room = s.len() - at;
    if room < size {
        return Err(Refusal::FileEnds);
    }
    let x = narrow_fields(s, at, b, m);
    judged(b, x, (5 * m + 3) as u64, at + size, room - size)
}

// The long packet with the flag b, whose fields stand at `at`: 36 bytes, of which the length counts 28.
// Kept: the steps are those of `narrow` over other fields; one function over both would take two sizes and a closure, and be no plainer.
fn long(s: &[u8], at: usize, b: usize) -> Result<Piece, Refusal>
    requires { at ≤ length s.now }
    ensures { result ≡ outlined long b at s.now }
{
    let room = s.len() - at;
    if room < 36 {
        return Err(Refusal::FileEnds);
    }
    let x = long_fields(s, at);
    judged(b, x, 28, at + 36, room - 36)
}

// The packet with the flag b, whose fields stand at `at`.
// Kept: the bits that `Form::of` reads are told apart here, since a second test on its answer cost drawing at 72 dpi six in a hundred.
#[tactic(auto, unfolding(format::specs::Verdict::form_of))]
pub fn packet_at(s: &[u8], at: usize, b: usize) -> Result<Piece, Refusal>
    requires { at ≤ length s.now }
    ensures { result ≡ outlined (form_of b) b at s.now }
{
    match b % 8 {
        0..=3 => narrow(s, at, b, 1),
        4..=6 => narrow(s, at, b, 2),
        _ => long(s, at, b),
    }
}
