// The packet at a place, drawn into a lent buffer.
#![tactic(auto)]

ghost use Rattle.packet.specs.Standing.{Drawable};
ghost use Rattle.glyph.specs.Packets.{IsDrawn, IsPixels};

use measures::Measures;
use packet::Outline;
use refusals::{Refusal, Refused};

// The packet of an outline whose flag stands at `at`: its measures, with its pixels in the buffer; or 17, with the buffer as it was.
pub fn draw_packet(font: &[u8], at: usize, x: Outline, buf: &mut [u8]) -> Result<Measures, Refused>
    requires { Drawable font.now at x }
    ensures drawn { IsDrawn font.now at buf.old result }
    ensures pixels { IsPixels font.now at buf.old buf.new }
{
    if buf.len() < x.w * x.h {
        return Err(Refusal::NoRoom.at(0));
    }
    raster::draw_raster(&font[x.raster..x.end], x.f, x.black, x.w, x.h, buf);
    Ok(measures::measures_at(font, at, x))
}
