// A raster of bits drawn into a lent buffer, a byte for each pixel.
#![tactic(auto)]

ghost use Rattle.std.specs.Prelude.{◌+◌, ◌*◌, ◌≤◌, ◌≡◌, ◌++◌, length, take, drop};
ghost use Rattle.std.proofs.Math.Seq.{paste};
ghost use Rattle.format.specs.Rasters.{bits_of, bits};

// The eight bits of a byte.
#[tactic(auto, unfolding(format::specs::Rasters::bits_of))]
fn eight(b: u8) -> [u8; 8]
    ensures { result ≡ bits_of b }
{
    [
        b / 128 % 2,
        b / 64 % 2,
        b / 32 % 2,
        b / 16 % 2,
        b / 8 % 2,
        b / 4 % 2,
        b / 2 % 2,
        b % 2,
    ]
}

// The first k of them, from `at` on.
fn put(buf: &mut [u8], at: usize, e: [u8; 8], k: usize)
    requires { (at + k ≤ length buf.old) × (k ≤ 8) }
    ensures { buf.new ≡ paste buf.old at e k }
{
    buf[at..at + k].copy_from_slice(&e[..k]);
}

// The first n bits of s fill as many bytes; the bytes beyond stay.
pub fn draw_bits(s: &[u8], n: usize, buf: &mut [u8])
    requires { (n ≤ 65536) × (n ≤ 8 * length s.now) × (n ≤ length buf.old) }
    ensures { buf.new ≡ take n (bits s.now) ++ drop n buf.old }
{
    // Kept: whole bytes and a tail, since chunks_mut(8) with zip took twice the time.
    let whole = n / 8;
    for i in 0..whole {
        put(buf, 8 * i, eight(s[i]), 8);
    }
    let at = 8 * whole;
    if at < n {
        put(buf, at, eight(s[whole]), n - at);
    }
}
