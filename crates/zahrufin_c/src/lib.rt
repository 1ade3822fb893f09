// The calls of include/zahrufin.h, exported for C: each is the function of the same name of the library zahrufin, with its promises.
#![tactic(auto)]

ghost use Rattle.std.specs.Prelude.{◌≡◌};
ghost use Rattle.format.specs.Refusals.{told};
ghost use Rattle.format.specs.Verdict.{check};
ghost use Rattle.format.specs.Drawing.{draw_answer, draw_buffer};
ghost use Rattle.format.specs.Packing.{pack_answer, pack_buffer};
ghost use Rattle.zahrufin.specs.Handed.{measures_of, checked_for, drawn_for, packed_for};

use zahrufin::{PlainChecked, PlainDrawn, PlainMeasures, PlainPacked};

// font::check for C.
#[unsafe(no_mangle)]
pub extern "C" fn zahrufin_check(font: &[u8]) -> PlainChecked
    ensures { result ≡ checked_for (told (check font.now)) }
{
    zahrufin::zahrufin_check(font)
}

// draw::draw for C.
#[unsafe(no_mangle)]
pub extern "C" fn zahrufin_draw(font: &[u8], code: u64, pixels: &mut [u8]) -> PlainDrawn
    ensures value { result ≡ drawn_for (told (draw_answer font.now code pixels.old)) }
    ensures pixels_after { pixels.new ≡ draw_buffer font.now code pixels.old }
{
    zahrufin::zahrufin_draw(font, code, pixels)
}

// pack::pack for C.
#[unsafe(no_mangle)]
pub extern "C" fn zahrufin_pack(
    bitmap: &[u8],
    measures: PlainMeasures,
    packet: &mut [u8],
) -> PlainPacked
    ensures value { result ≡ packed_for (told (pack_answer bitmap.now (measures_of measures) packet.old)) }
    ensures packet_after { packet.new ≡ pack_buffer bitmap.now (measures_of measures) packet.old }
{
    zahrufin::zahrufin_pack(bitmap, measures, packet)
}
