// The public calls as C takes them, as include/zahrufin.h declares them: structs by value, answers in 01's numbers, and 0 in each field
// that an answer does not use. C calls them by the exports of zahrufin_c.
#![tactic(auto)]

ghost use Rattle.std.specs.Prelude.{◌≡◌};
ghost use Rattle.format.specs.Refusals.{told};
ghost use Rattle.format.specs.Verdict.{check};
ghost use Rattle.format.specs.Drawing.{draw_answer, draw_buffer};
ghost use Rattle.format.specs.Packing.{pack_answer, pack_buffer};
ghost use Rattle.measures.specs.Said.{said};
ghost use Rattle.zahrufin.specs.Handed.{measures_of, plain_of, no_measures, checked_for, drawn_for, packed_for};

use escapement::Scaled;
use measures::Measures;

// zahrufin_measures. (Kept, here and in zahrufin_c: these structs and their numbers are what C has.)
#[repr(C)]
#[derive(Clone, Copy, Debug, PartialEq, Eq)]
pub struct PlainMeasures {
    pub code: i64,
    pub w: i64,
    pub h: i64,
    pub tfm: i64,
    pub dx: i64,
    pub dy: i64,
    pub hoff: i64,
    pub voff: i64,
}

// zahrufin_checked.
#[repr(C)]
#[derive(Clone, Copy, Debug, PartialEq, Eq)]
pub struct PlainChecked {
    pub refusal: u32,
    pub place: u32,
    pub chars: u32,
}

// zahrufin_drawn.
#[repr(C)]
#[derive(Clone, Copy, Debug, PartialEq, Eq)]
pub struct PlainDrawn {
    pub refusal: u32,
    pub place: u32,
    pub measures: PlainMeasures,
}

// zahrufin_packed.
#[repr(C)]
#[derive(Clone, Copy, Debug, PartialEq, Eq)]
pub struct PlainPacked {
    pub refusal: u32,
    pub place: u32,
    pub length: u32,
}

impl PlainMeasures {
    // Where an answer has no measures.
    const NONE: PlainMeasures = PlainMeasures {
        code: 0,
        w: 0,
        h: 0,
        tfm: 0,
        dx: 0,
        dy: 0,
        hoff: 0,
        voff: 0,
    };
}

// The measures as C has them.
impl From<Measures> for PlainMeasures {
    ghost from_gives = { λ m r. r ≡ plain_of (said m) };

    fn from(m: Measures) -> PlainMeasures {
        PlainMeasures {
            code: m.code,
            w: m.w,
            h: m.h,
            tfm: m.tfm,
            dx: m.dx.0,
            dy: m.dy.0,
            hoff: m.hoff,
            voff: m.voff,
        }
    }
}

// C's measures as the calls take them.
impl From<PlainMeasures> for Measures {
    ghost from_gives = { λ m r. said r ≡ measures_of m };

    fn from(m: PlainMeasures) -> Measures {
        Measures {
            code: m.code,
            w: m.w,
            h: m.h,
            tfm: m.tfm,
            dx: Scaled(m.dx),
            dy: Scaled(m.dy),
            hoff: m.hoff,
            voff: m.voff,
        }
    }
}

// font::check for C.
pub fn zahrufin_check(font: &[u8]) -> PlainChecked
    ensures { result ≡ checked_for (told (check font.now)) }
{
    match font::check(font) {
        Ok(n) => PlainChecked {
            refusal: 0,
            place: 0,
            chars: n as u32,
        },
        Err(x) => PlainChecked {
            refusal: x.refusal.number(),
            place: x.place as u32,
            chars: 0,
        },
    }
}

// draw::draw for C.
pub fn zahrufin_draw(font: &[u8], code: u64, pixels: &mut [u8]) -> PlainDrawn
    ensures value { result ≡ drawn_for (told (draw_answer font.now code pixels.old)) }
    ensures pixels_after { pixels.new ≡ draw_buffer font.now code pixels.old }
{
    match draw::draw(font, code as usize, pixels) {
        Ok(m) => PlainDrawn {
            refusal: 0,
            place: 0,
            measures: PlainMeasures::from(m),
        },
        Err(x) => PlainDrawn {
            refusal: x.refusal.number(),
            place: x.place as u32,
            measures: PlainMeasures::NONE,
        },
    }
}

// pack::pack for C.
pub fn zahrufin_pack(bitmap: &[u8], measures: PlainMeasures, packet: &mut [u8]) -> PlainPacked
    ensures value { result ≡ packed_for (told (pack_answer bitmap.now (measures_of measures) packet.old)) }
    ensures packet_after { packet.new ≡ pack_buffer bitmap.now (measures_of measures) packet.old }
{
    match pack::pack(bitmap, Measures::from(measures), packet) {
        Ok(n) => PlainPacked {
            refusal: 0,
            place: 0,
            length: n as u32,
        },
        Err(x) => PlainPacked {
            refusal: x.refusal.number(),
            place: x.place as u32,
            length: 0,
        },
    }
}
