// Many-byte fields of a slice, of 1 to 4 bytes: unsigned, and signed, which 01 has of 8, 16 and 32 bits, rebuilt from their bytes.
#![tactic(auto)]

ghost use Rattle.std.specs.Prelude.{◌+◌, ◌≤◌, ◌<◌, ◌^◌, ◌≡◌, length, drop};
ghost use Rattle.format.specs.Numbers.{signed};
ghost use Rattle.format.specs.Decoding.{number, value_of};
ghost use Rattle.fields.specs.Field.{NumberAt};

// From here on a number of four bytes stands for a negative one.
pub const NEGATIVE: u64 = 2147483648;

// How many values k bytes have.
// (Kept, here and in pieces and head: k is a number of bytes, which is added and multiplied. std has no integer of three bytes.)
pub fn values_of(k: usize) -> u64
    requires { k ≤ 4 }
    ensures { result ≡ 256 ^ k }
{
    1 << (8 * k)
}

// The k bytes from at on, the first most significant.
pub fn number_at(s: &[u8], at: usize, k: usize) -> u64
    requires { (at + k ≤ length s.now) × (k ≤ 4) }
    ensures { NumberAt s.now at k result }
{
    let mut n: u64 = 0;
    for &b in &s[at..at + k] {
        n = n * 256 + u64::from(b);
    }
    n
}

// The k bytes from at on in two's complement.
pub fn signed_at(s: &[u8], at: usize, k: usize) -> i64
    requires { (at + k ≤ length s.now) × (1 ≤ k) × (k ≤ 4) }
    ensures { result ≡ value_of (signed k) (number k (drop at s.now)) }
{
    let n = number_at(s, at, k);
    let all = values_of(k);
    if 2 * n < all {
        n as i64
    } else {
        0 - (all - n) as i64
    }
}
