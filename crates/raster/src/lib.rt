// A raster of any kind, known to be whole, drawn into a lent buffer, a byte for each pixel.
#![tactic(auto)]

ghost use Rattle.std.specs.Prelude.{◌*◌, ◌≤◌, ◌≡◌, true, ◌++◌, length, drop};
ghost use Rattle.format.specs.Limits.{in_limits};
ghost use Rattle.format.specs.Drawing.{raster_pixels};
ghost use Rattle.format.specs.Reading.{ReadWhole};

use packed::Factor;

// The raster bytes s fill the first w * h bytes with its pixels; the bytes beyond stay.
// Kept: f, the black bit, w and h one by one, as in judge::judge.
pub fn draw_raster(s: &[u8], f: usize, black: bool, w: usize, h: usize, buf: &mut [u8])
    requires { (f ≤ 14) × (in_limits w h ≡ true) × (w * h ≤ length buf.old) × ReadWhole f w h s.now }
    ensures { buf.new ≡ raster_pixels f black w h s.now ++ drop (w * h) buf.old }
{
    if w == 0 {
        return;
    }
    match Factor::new(f) {
        None => bits::draw_bits(s, w * h, buf),
        Some(f) => runs::draw_runs(s, f, black, w, h, buf),
    }
}
