// The measures of the packet at a place.
#![tactic(auto)]

ghost use Rattle.std.specs.Prelude.{◌+◌, ◌*◌, ◌≤◌, ◌≡◌, length, drop};
ghost use Rattle.format.specs.Pieces.{long};
ghost use Rattle.packet.specs.Outlines.{narrow_form};
ghost use Rattle.packet.specs.Standing.{StandsAt};
ghost use Rattle.measures.specs.Said.{said, said_by, Small, IsSaid};

use escapement::{Pixels, Scaled};
use packet::{Form, Outline};

// What is said of a character: code, width and height, TFM width, escapements in pixels times 65,536, and the offsets from the upper
// left pixel to the reference pixel.
#[derive(Clone, Copy, Debug, PartialEq, Eq)]
pub struct Measures {
    pub code: i64,
    pub w: i64,
    pub h: i64,
    pub tfm: i64,
    pub dx: Scaled,
    pub dy: Scaled,
    pub hoff: i64,
    pub voff: i64,
}

// The measures of a packet of an outline whose fields stand at `at`: of a short one, of m = 1, or of an extended one, of m = 2,
// length[m] code[1] tfm[3] dm[m] w[m] h[m] hoff[+m] voff[+m].
fn narrow(s: &[u8], at: usize, m: usize, x: Outline) -> Measures
    requires { (at + (6 * m + 4) ≤ length s.now) × (1 ≤ m) × (m ≤ 2) × Small x }
    ensures { said result ≡ said_by (narrow_form m) x (drop at s.now) }
{
    let tfm_at = at + m + 1;
    let dm_at = tfm_at + 3;
    let hoff_at = dm_at + 3 * m;
    let voff_at = hoff_at + m;
    let tfm = fields::number_at(s, tfm_at, 3);
    let dm = fields::number_at(s, dm_at, m);
    let hoff = fields::signed_at(s, hoff_at, m);
    let voff = fields::signed_at(s, voff_at, m);
    Measures {
        code: x.code as i64,
        w: x.w as i64,
        h: x.h as i64,
        tfm: tfm as i64,
        dx: Scaled::from(Pixels(dm as u32)),
        dy: Scaled::from(Pixels(0)),
        hoff,
        voff,
    }
}

// The same of a long one: length, code, tfm, dx, dy, w, h, hoff, voff of four bytes each.
// Kept: it has other fields than a narrow one, dx and dy for dm, in another order.
fn long(s: &[u8], at: usize, x: Outline) -> Measures
    requires { (at + 36 ≤ length s.now) × Small x }
    ensures { said result ≡ said_by long x (drop at s.now) }
{
    let tfm = fields::signed_at(s, at + 8, 4);
    let dx = fields::signed_at(s, at + 12, 4);
    let dy = fields::signed_at(s, at + 16, 4);
    let hoff = fields::signed_at(s, at + 28, 4);
    let voff = fields::signed_at(s, at + 32, 4);
    Measures {
        code: x.code as i64,
        w: x.w as i64,
        h: x.h as i64,
        tfm,
        dx: Scaled(dx),
        dy: Scaled(dy),
        hoff,
        voff,
    }
}

// The measures of the packet of an outline whose flag stands at `at`.
pub fn measures_at(font: &[u8], at: usize, x: Outline) -> Measures
    requires { StandsAt font.now at x }
    ensures { IsSaid font.now at result }
{
    let fields = at + 1;
    match Form::of(usize::from(font[at])) {
        Form::Short => narrow(font, fields, 1, x),
        Form::Extended => narrow(font, fields, 2, x),
        Form::Long => long(font, fields, x),
    }
}
