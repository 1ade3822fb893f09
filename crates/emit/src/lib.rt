// Packed numbers written as nybbles into a lent buffer.
#![tactic(auto)]

ghost use Rattle.std.specs.Prelude.{◌+◌, ◌*◌, ◌≤◌, ◌<◌, ◌≡◌, length};
ghost use Rattle.format.specs.Packed.{large, encode};
ghost use Rattle.emit.specs.Nybbles.{put_one, put_all};

use packed::Factor;

// The nybble x at i.
// Kept, here and wherever a buffer is written (fill, bits, run_bytes, bit_bytes, head): a buffer and a place go in, and the place behind comes
// back. A struct that holds a &mut buffer would say what is written in clauses on loans, where these are equations.
#[tactic(auto, using(crate::proofs::PutLaws::put_even, crate::proofs::PutLaws::put_odd))]
pub fn put_nybble(buf: &mut [u8], i: usize, x: usize)
    requires { (i < 2 * length buf.old) × (x < 16) }
    ensures { buf.new ≡ put_one buf.old i x }
{
    let at = i / 2;
    if i % 2 == 0 {
        buf[at] = (x * 16) as u8;
    } else {
        buf[at] = buf[at] / 16 * 16 + x as u8;
    }
}

// k with its zeros and hexadecimal digits, from i on; it answers the place behind.
#[tactic(auto, using(crate::proofs::PutLaws::large_length_one, crate::proofs::PutLaws::large_length_more))]
fn write_large(buf: &mut [u8], i: usize, k: usize) -> usize
    requires { i + length (large k) ≤ 2 * length buf.old }
    ensures { (result ≡ i + length (large k)) × (buf.new ≡ put_all buf.old i (large k)) }
{
    if k < 16 {
        put_nybble(buf, i, k);
        i + 1
    } else {
        put_nybble(buf, i, 0);
        let at = write_large(buf, i + 1, k / 16);
        put_nybble(buf, at, k % 16);
        at + 1
    }
}

// The number n for f, from i on; it answers the place behind. Up to the limit, and only so far, the first of two nybbles is at most 13.
#[tactic(auto, using(format::proofs::PackedLaws::length_one, crate::proofs::PutLaws::two_long))]
pub fn write_number(buf: &mut [u8], i: usize, f: Factor, n: usize) -> usize
    requires { (1 ≤ n) × (n ≤ 65536) × (i + length (encode f.n n) ≤ 2 * length buf.old) }
    ensures { (result ≡ i + length (encode f.n n)) × (buf.new ≡ put_all buf.old i (encode f.n n)) }
{
    if n <= f.n {
        put_nybble(buf, i, n);
        return i + 1;
    }
    let k = n - f.n - 1;
    if k / 16 + f.n < 13 {
        put_nybble(buf, i, k / 16 + f.n + 1);
        put_nybble(buf, i + 1, k % 16);
        return i + 2;
    }
    let m = packed::limit_of(f);
    write_large(buf, i, n - m + 15)
}
