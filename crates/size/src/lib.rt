// The size pass: the nybbles of a bitmap's count list for each f from 0 to 13, and the f that is chosen.
#![tactic(auto)]

ghost use Rattle.std.specs.Prelude.{ℕ, ◌+◌, ◌*◌, ◌≤◌, ◌<◌, ◌≡◌, ◌∷◌, [], All, length};
ghost use Rattle.format.specs.Rasters.{run};
ghost use Rattle.format.specs.Counts.{before};
ghost use Rattle.format.specs.Packed.{limit, encode};
ghost use Rattle.format.specs.Choice.{nybble_count};
ghost use Rattle.walk.specs.Walk.{begin};
ghost use Rattle.part.specs.Parts.{kept, Small, Kept, First};
ghost use Rattle.size.specs.Sizes.{over, Few, short_nybbles, digit_nybbles, Totals, Added, Grown, Sized, Best, IsChosen};

use part::{Part, Run};
use walk::{Bitmap, Rows};

// The f that is chosen, and the number of its raster bytes.
#[derive(Clone, Copy)]
pub struct Chosen {
    pub f: usize,
    pub bytes: usize,
}

// 1 if n is above the most, else 0: a sum and a shift and no test, so that several are taken side by side. 131,072 is 2 to the 17th, above
// every number here.
fn above(most: u32, n: u32) -> u32
    requires { (most ≤ 131071) × (n ≤ 65536) }
    ensures { Few (over most n) 1 result }
{
    (n + 131071 - most) / 131072
}

// 1, or 2 if n is above the most.
// Kept: 1 + above(most, n) makes add_number slower by a sixth.
fn one_or_two(most: u32, n: u32) -> u32
    requires { (most ≤ 131071) × (n ≤ 65536) }
    ensures { Few (1 + over most n) 2 result }
{
    (n + 262143 - most) / 131072
}

// M = 208 - 15 * f.
// Kept beside packed::limit_of: computed and not looked up, so that several f are taken side by side; f is the loop's number.
fn limit_of(f: u32) -> u32
    requires { f ≤ 13 }
    ensures { Few (limit f) 208 result }
{
    208 - 15 * f
}

// The nybbles of the packed number n up to the third.
fn short_nybbles(f: u32, n: u32) -> u32
    requires { (f ≤ 13) × (n ≤ 65536) }
    ensures { Few (short_nybbles f n) 3 result }
{
    one_or_two(f, n) + above(limit_of(f), n)
}

// The nybbles of the packed number n from the fourth on: two for each hexadecimal digit of n - M + 15 from the third on, which it has from
// 256, 4,096 and 65,536 on.
fn digit_nybbles(f: u32, n: u32) -> u32
    requires { (f ≤ 13) × (n ≤ 65536) }
    ensures { Few (digit_nybbles f n) 6 result }
{
    let most = limit_of(f);
    2 * (above(most + 240, n) + above(most + 4080, n) + above(most + 65520, n))
}

// As many nybbles as a closure says for each f, in the fourteen totals. The loop has no branch. (A total of a whole count list is at most
// 2,000,000; the bounds here leave room for what is added to it. Kept: each function asks another bound, so no type says it.)
fn add_each<F: Fn(u32) -> u32>(t: &mut [u32; 14], nybbles: F)
    requires room { Totals 4000000 t.old }
    requires can { (f : ℕ) → f < 14 → F.pre nybbles f }
    requires few { (f n : ℕ) → f < 14 → F.post nybbles f n → n ≤ 10 }
    ensures { Added t.old (F.post nybbles) t.new }
{
    for (f, total) in t.iter_mut().enumerate() {
        *total += nybbles(f as u32);
    }
}

// The packed number n in the fourteen totals. No number up to 253 has a fourth nybble, for any f.
fn add_number(t: &mut [u32; 14], n: u32)
    requires { (Totals 3000000 t.old) × (n ≤ 65536) }
    ensures { Grown t.old (λ f. length (encode f n)) t.new }
{
    add_each(t, |f| short_nybbles(f, n));
    if n < 254 {
        return;
    }
    add_each(t, |f| digit_nybbles(f, n));
}

// The repeat m in the fourteen totals.
fn add_repeat(t: &mut [u32; 14], m: u32)
    requires { (Totals 2000000 t.old) × (1 ≤ m) × (m ≤ 65536) }
    ensures { Grown t.old (nybble_count (before m [])) t.new }
{
    // A 14 or 15.
    add_each(t, |_| 1);
    if m == 1 {
        return;
    }
    add_number(t, m);
}

// A run in the fourteen totals, with the repeat before it.
fn add_run(t: &mut [u32; 14], r: Run)
    requires { (Totals 2000000 t.old) × (r.length ≤ 65536) × (r.repeat ≤ 65536) }
    ensures { Grown t.old (nybble_count (before r.repeat (run r.length ∷ []))) t.new }
{
    if r.repeat == 0 {
        add_number(t, r.length);
        return;
    }
    add_repeat(t, r.repeat);
    add_number(t, r.length);
}

// The runs of a part in the fourteen totals.
fn add_part(t: &mut [u32; 14], runs: &[Run])
    requires { (Totals 1500000 t.old) × (length runs.now ≤ 512) × All Small runs.now }
    ensures { Grown t.old (nybble_count (kept runs.now)) t.new }
{
    for r in runs {
        add_run(t, *r);
    }
}

// All fourteen sizes, f = 0 first, from the first part on. Where the first is the whole list, it stays kept.
// Kept: the loop of run_bytes::write_nybbles. One function for both would take a closure that writes, whose calls no equation tells.
pub fn sizes(rows: Rows, part: &mut Part) -> [u32; 14]
    requires { Kept rows.pixels.now rows.w begin part.old }
    ensures { Sized rows.entry.pixels.now rows.entry.w part.old result part.new }
{
    let mut t = [0u32; 14];
    let several = part.is_full();
    loop {
        add_part(&mut t, part.runs());
        if !part.is_full() {
            break;
        }
        part.walk_on(rows);
    }
    if several {
        part.forget();
    }
    t
}

// The place of the least, and of equal ones the last.
fn least_of(t: [u32; 14]) -> usize
    ensures { Best t 14 result }
{
    let mut best: usize = 0;
    for f in 1..14 {
        if t[f] <= t[best] {
            best = f;
        }
    }
    best
}

// The choice for a bitmap, and the first part of its count list, if that is the whole list.
pub fn choose(b: Bitmap, part: &mut Part) -> Chosen
    ensures chosen { IsChosen b.entry.rows.w b.entry.h b.entry.rows.pixels.now result }
    ensures first { First b.entry.rows.pixels.now b.entry.rows.w part.new }
{
    let bits = b.rows.pixels.len().div_ceil(8);
    if b.rows.w == 0 {
        part.forget();
        // Kept, here and below: 14 is the number that a packet's flag has for bits.
        return Chosen { f: 14, bytes: bits };
    }
    part.restart(b.rows);
    let t = sizes(b.rows, part);
    let f = least_of(t);
    let bytes = (t[f] as usize).div_ceil(2);
    if bits < bytes {
        return Chosen { f: 14, bytes: bits };
    }
    Chosen { f, bytes }
}
