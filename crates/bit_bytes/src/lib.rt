// The raster bytes of a bitmap's bits (f = 14), written into a lent buffer.
#![tactic(auto)]

ghost use Rattle.std.specs.Prelude.{◌+◌, ◌*◌, ◌≤◌, ◌<◌, ◌≡◌, true, ◌++◌, length, take, drop, get_or};
ghost use Rattle.format.specs.Rasters.{bytes_of_bits};
ghost use Rattle.format.specs.Choice.{byte_of, bit_bytes};
ghost use Rattle.format.specs.Packing.{all_pixels};
ghost use Rattle.bit_bytes.specs.Pixels.{PixelAt};

// The pixels of a bitmap, 0 or 1 each.
#[derive(Clone, Copy)]
pub struct Pixels<'a> {
    pub bytes: &'a [u8],
    pub ghost are: { all_pixels bytes.now ≡ true },
}

impl Pixels<'_> {
    // The pixel at i, white behind the last.
    fn pixel_at(self, i: usize) -> usize
        ensures { PixelAt self.entry.bytes.now i result }
    {
        if i < self.bytes.len() {
            usize::from(self.bytes[i])
        } else {
            0
        }
    }

    // Two pixels from i on as a number.
    fn two(self, i: usize) -> usize
        requires { i + 2 ≤ length self.bytes.now }
        ensures { (result ≡ 2 * get_or self.entry.bytes.now i 0 + get_or self.entry.bytes.now (i + 1) 0) × (result < 4) }
    {
        2 * usize::from(self.bytes[i]) + usize::from(self.bytes[i + 1])
    }

    // Eight pixels from i on as a byte, all of them there: no test for each.
    fn whole(self, i: usize) -> usize
        requires { i + 8 ≤ length self.bytes.now }
        ensures { (result ≡ byte_of 0 8 (drop i self.entry.bytes.now)) × (result < 256) }
    {
        64 * self.two(i) + 16 * self.two(i + 2) + 4 * self.two(i + 4) + self.two(i + 6)
    }

    // Eight pixels from i on as a byte, white behind the last.
    fn eight(self, i: usize) -> usize
        requires { i < length self.bytes.now }
        ensures { (result ≡ byte_of 0 8 (drop i self.entry.bytes.now)) × (result < 256) }
    {
        if 8 <= self.bytes.len() - i {
            return self.whole(i);
        }
        let mut v: usize = 0;
        for j in i..i + 8 {
            v = 2 * v + self.pixel_at(j);
        }
        v
    }
}

// The bits of all pixels, from the byte at `at` on; spare bits are zero. It answers the place behind.
pub fn write_bits(b: Pixels, buf: &mut [u8], at: usize) -> usize
    requires { (length b.bytes.now ≤ 65536) × (at + bytes_of_bits (length b.bytes.now) ≤ length buf.old) }
    ensures value { result ≡ at + bytes_of_bits (length b.entry.bytes.now) }
    ensures buf_after { buf.new ≡ take at buf.old ++ (bit_bytes (bytes_of_bits (length b.entry.bytes.now)) b.entry.bytes.now ++ drop result buf.old) }
{
    let n = b.bytes.len().div_ceil(8);
    for k in 0..n {
        buf[at + k] = b.eight(8 * k) as u8;
    }
    at + n
}
