// Drawing a code of a font into a lent buffer: the public call.
#![tactic(auto)]

ghost use Rattle.std.specs.Prelude.{◌≡◌};
ghost use Rattle.format.specs.Refusals.{told};
ghost use Rattle.format.specs.Drawing.{draw_answer, draw_buffer};
ghost use Rattle.find.specs.Places.{Accepted};
ghost use Rattle.glyph.specs.Answer.{in_numbers};

use measures::Measures;
use refusals::{Refusal, Refused};

// A code of an accepted font: 16, then 17, or its measures and pixels.
fn draw_accepted(font: &[u8], code: usize, pixels: &mut [u8]) -> Result<Measures, Refused>
    requires { Accepted font.now }
    ensures result_value { in_numbers result ≡ told (draw_answer font.now code pixels.old) }
    ensures pixels_after { pixels.new ≡ draw_buffer font.now code pixels.old }
{
    let Some((at, x)) = find::packet_of(font, code) else {
        return Err(Refusal::NoSuchCode.at(0));
    };
    glyph::draw_packet(font, at, x, pixels)
}

// Any bytes, any code, any buffer: the font's own fault, then 16, then 17, and the buffer stays as it was; or the measures, with the
// pixels in the first w * h bytes of the buffer, and the bytes beyond stay.
pub fn draw(font: &[u8], code: usize, pixels: &mut [u8]) -> Result<Measures, Refused>
    ensures result_value { in_numbers result ≡ told (draw_answer font.now code pixels.old) }
    ensures pixels_after { pixels.new ≡ draw_buffer font.now code pixels.old }
{
    font::check(font)?;
    draw_accepted(font, code, pixels)
}
