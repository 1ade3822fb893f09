// Packed numbers: one is read from the nybbles of a slice, however many zeros and digits it has.
#![tactic(auto)]

ghost use Rattle.std.specs.Prelude.{◌*◌, ◌+◌, ◌≤◌, ◌<◌, ◌≡◌, ◌↔◌, length, IfSome, IsNone};
ghost use Rattle.format.specs.Packed.{limit};
ghost use Rattle.format.specs.Decoding.{digits, zeros, shift};
ghost use Rattle.packed.specs.Answer.{from, to_read, read_at, Skipped, IsShort};

// A number that is read, 65,537 for any above 65,536, and the place of the next nybble.
// Kept, here and wherever a slice is read: a slice and a place go in, and where it is asked for the next place comes back. What is read may be
// looked at before it is taken, and the contracts are equations in the place.
#[derive(Clone, Copy)]
pub struct Number {
    pub n: usize,
    pub next: usize,
}

// Why none is read: the nybbles end inside it, or a 14 or 15 stands where it must begin.
#[derive(Clone, Copy)]
pub enum Unread {
    Ends,
    Mark,
}

// The f of a raster of runs.
#[derive(Clone, Copy)]
pub struct Factor {
    pub n: usize,
    pub ghost small: { n ≤ 13 },
}

impl Factor {
    // None above 13.
    pub fn new(n: usize) -> Option<Factor>
        ensures some { IfSome result (λ x. x.n ≡ n) }
        ensures none { IsNone result ↔ (13 < n) }
    {
        if 13 < n { None } else { Some(Factor { n }) }
    }
}

// Above every limit: no run or repeat of a raster is so long.
const OVER: usize = 65537;

// A sum of digits is held here: less 15, plus any M, it is still at least OVER.
const CAP: usize = 131072;

// The most that two nybbles reach, for f = 0 to 13.
const LIMITS: [usize; 14] = [
    208, 193, 178, 163, 148, 133, 118, 103, 88, 73, 58, 43, 28, 13,
];

// M = 208 - 15 * f.
pub fn limit_of(f: Factor) -> usize
    ensures { result ≡ limit f.n }
{
    LIMITS[f.n]
}

// The place of the first nybble from at on that is not zero, or the end of the nybbles. A call: built into its caller, the loop was slower.
#[inline(never)]
fn skip_zeros(s: &[u8], at: usize) -> usize
    requires { at ≤ 2 * length s.now }
    ensures { Skipped s.now at result }
{
    let end = 2 * s.len();
    for j in at..end {
        if nybbles::nybble(s, j) != 0 {
            return j;
        }
    }
    end
}

// z digits more, from at on, after a first digit, for the limit m.
fn read_digits(s: &[u8], at: usize, z: usize, first: usize, m: usize) -> Result<Number, Unread>
    requires { (at ≤ 2 * length s.now) × (1 ≤ z) × (1 ≤ first) × (first < 16) × (m ≤ 208) }
    ensures { result ≡ to_read s.now (shift m (digits z first (from s.now at))) }
{
    if 2 * s.len() - at < z {
        return Err(Unread::Ends);
    }
    let next = at + z;
    let mut k = first;
    for j in at..next {
        k = (k * 16 + nybbles::nybble(s, j)).min(CAP);
    }
    Ok(Number {
        n: (k - 15 + m).min(OVER),
        next,
    })
}

// From at on, after a first zero, for the limit m.
fn read_large(s: &[u8], at: usize, m: usize) -> Result<Number, Unread>
    requires { (1 ≤ at) × (at ≤ 2 * length s.now) × (m ≤ 208) }
    ensures { result ≡ to_read s.now (shift m (zeros 1 (from s.now at))) }
{
    let end = 2 * s.len();
    let j = skip_zeros(s, at);
    if end <= j {
        return Err(Unread::Ends);
    }
    let a = nybbles::nybble(s, j);
    read_digits(s, j + 1, j - at + 1, a, m)
}

// The packed number of one or two nybbles whose first is at `at`, for f. Most numbers are such.
#[inline(always)]
pub fn short_at(s: &[u8], at: usize, f: Factor) -> Option<Number>
    ensures { IsShort s.now at f.n result }
{
    let end = 2 * s.len();
    if end <= at {
        return None;
    }
    let a = nybbles::nybble(s, at);
    if a == 0 {
        return None;
    }
    if 13 < a {
        return None;
    }
    let next = at + 1;
    if a <= f.n {
        return Some(Number { n: a, next });
    }
    if end <= next {
        return None;
    }
    let b = nybbles::nybble(s, next);
    Some(Number {
        n: (a - f.n - 1) * 16 + b + f.n + 1,
        next: next + 1,
    })
}

// The packed number whose first nybble is at `at`, for f.
pub fn read_number(s: &[u8], at: usize, f: Factor) -> Result<Number, Unread>
    ensures { result ≡ read_at s.now at f.n }
{
    if let Some(number) = short_at(s, at, f) {
        return Ok(number);
    }
    if 2 * s.len() <= at {
        return Err(Unread::Ends);
    }
    match nybbles::nybble(s, at) {
        0 => read_large(s, at + 1, limit_of(f)),
        14.. => Err(Unread::Mark),
        _ => Err(Unread::Ends),
    }
}
