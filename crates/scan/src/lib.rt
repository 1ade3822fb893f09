// Bytes of a slice compared, eight at a time: how far they are all one byte, and how far two stretches are equal.
#![tactic(auto)]

ghost use Rattle.std.specs.Prelude.{◌≡◌, ◌+◌, ◌<◌, ◌≤◌, ℕ, length, slice_index};
ghost use Rattle.scan.specs.Scan.{Eight, Alike, AreSame, First, FirstOther, FirstDifference};

// The number whose eight bytes are all 1.
const ONES: u64 = 72340172838076673;

// What the bytes of a slice are held against, by place: a byte, or eight from there on as one number.
trait Against: Copy {
    // The byte at a place, and whether there is one.
    ghost byte_at: { Self → ℕ → ℕ };

    ghost has: { Self → ℕ → Type 0 };

    fn byte(self, i: usize) -> u8
        requires { has self i }
        ensures { result ≡ byte_at self i };

    fn word(self, i: usize) -> u64
        requires { has self (i + 7) }
        ensures { Eight (λ j. byte_at self (i + j)) result };
}

// The same byte at each place.
#[derive(Clone, Copy)]
struct Repeated(u8);

impl Against for Repeated {
    ghost byte_at = { λ s i. s.0 };

    ghost has = { λ s i. Unit {0} };

    fn byte(self, i: usize) -> u8 {
        self.0
    }

    fn word(self, i: usize) -> u64 {
        u64::from(self.0) * ONES
    }
}

// The bytes of another slice.
#[derive(Clone, Copy)]
struct Stretch<'a>(&'a [u8]);

impl Against for Stretch<'_> {
    ghost byte_at = { λ s. slice_index s.0.now };

    ghost has = { λ s i. i < length s.0.now };

    fn byte(self, i: usize) -> u8 {
        self.0[i]
    }

    fn word(self, i: usize) -> u64 {
        eight(self.0, i)
    }
}

// The eight bytes from a place on as one number, the first least.
fn eight(s: &[u8], i: usize) -> u64
    requires { i + 7 < length s.now }
    ensures { Eight (λ j. slice_index s.now (i + j)) result }
{
    u64::from_le_bytes([
        s[i],
        s[i + 1],
        s[i + 2],
        s[i + 3],
        s[i + 4],
        s[i + 5],
        s[i + 6],
        s[i + 7],
    ])
}

// How many of the eight bytes of two numbers are equal before the first that differ, the least first.
fn alike(x: u64, y: u64) -> usize
    ensures { Alike x y result }
{
    x.wrapping_sub(y).trailing_zeros() as usize / 8
}

// The first of n bytes that differs, byte by byte.
fn unlike_byte<A: Against>(s: &[u8], n: usize, a: A) -> usize
    requires there { (i : ℕ) → i < length s.now → A.has a i }
    requires long { n ≤ length s.now }
    ensures { First (AreSame (slice_index s.now) (A.byte_at a)) n result }
{
    for i in 0..n {
        if s[i] != a.byte(i) {
            return i;
        }
    }
    n
}

// The first of at most eight bytes, at once unless the slice ends within eight.
fn unlike_in_word<A: Against>(s: &[u8], n: usize, a: A) -> usize
    requires there { (i : ℕ) → i < length s.now → A.has a i }
    requires long { (n ≤ length s.now) × (n ≤ 8) }
    ensures { First (AreSame (slice_index s.now) (A.byte_at a)) n result }
{
    if s.len() < 8 {
        return unlike_byte(s, n, a);
    }
    alike(eight(s, 0), a.word(0)).min(n)
}

// How many of the first n bytes are as they should be before the first other one, or n: words of eight, of which the last ends with the
// last byte and may overlap the one before.
fn first_unlike<A: Against>(s: &[u8], n: usize, a: A) -> usize
    requires there { (i : ℕ) → i < length s.now → A.has a i }
    requires long { n ≤ length s.now }
    ensures { First (AreSame (slice_index s.now) (A.byte_at a)) n result }
{
    if n < 8 {
        return unlike_in_word(s, n, a);
    }
    let last = n - 8;
    for k in 0..(n - 1) / 8 {
        let i = 8 * k;
        let word = eight(s, i);
        let other = a.word(i);
        if word != other {
            return i + alike(word, other);
        }
    }
    last + alike(eight(s, last), a.word(last))
}

// How many of the n bytes from a place on are x before the first other one, or n.
pub fn first_other(b: &[u8], at: usize, n: usize, x: u8) -> usize
    requires { at + n ≤ length b.now }
    ensures { FirstOther b.now at n x result }
{
    first_unlike(&b[at..], n, Repeated(x))
}

// How many of the n bytes from x on and from y on are equal before the first that differ, or n.
pub fn first_difference(b: &[u8], x: usize, y: usize, n: usize) -> usize
    requires { (x ≤ y) × (y + n ≤ length b.now) }
    ensures { FirstDifference b.now x y n result }
{
    first_unlike(&b[y..], n, Stretch(&b[x..]))
}
