// The looking program's cases, each told on standard output: characters of real fonts as text and as a PBM, and whatever can be wrong.
#![tactic(auto)]

use std::io;
use std::rt::Files;

// The program with so many arguments, both of its outputs the standard output.
fn run<R: Files + Print>(
    rt: &R,
    count: usize,
    path: &[u8],
    code: &[u8],
    word: &[u8],
) -> io::Result<()> {
    let mut out = io::writer(rt);
    let mut err = io::writer(rt);
    looking::run(rt, count, path, code, word, &mut out, &mut err)
}

// The program with two arguments, then with pbm as a third.
fn both<R: Files + Print>(rt: &R, path: &[u8], code: &[u8]) -> io::Result<()> {
    run(rt, 3, path, code, b"")?;
    run(rt, 4, path, code, b"pbm")
}

// Characters.
fn pictures<R: Files + Print>(rt: &R) -> io::Result<()> {
    both(rt, b"cmr10.72.pk", b"103")?;
    both(rt, b"cmex10.300.pk", b"32")?;
    both(rt, b"cmsy10.300.pk", b"0110")
}

// Codes that are none, or that the font lacks.
fn codes<R: Files + Print>(rt: &R) -> io::Result<()> {
    both(rt, b"cmr10.72.pk", b"200")?;
    both(rt, b"cmr10.72.pk", b"256")?;
    both(rt, b"cmr10.72.pk", b"100000000000000000000")?;
    both(rt, b"cmr10.72.pk", b"")?;
    both(rt, b"cmr10.72.pk", b"6g")?;
    both(rt, b"cmr10.72.pk", b"-1")?;
    both(rt, b"blank.pk", b"4")
}

// Paths that are none, and fonts that are refused, one for a byte too many.
fn fonts<R: Files + Print>(rt: &R) -> io::Result<()> {
    both(rt, b"no-such-font.pk", b"65")?;
    both(rt, b"", b"65")?;
    both(rt, b".", b"65")?;
    both(rt, b"vnr10.300.pk", b"65")?;
    both(rt, b"cminch.300.pk", b"65")?;
    both(rt, b"long.pk", b"4")
}

// Too few arguments, a third that is not pbm, and too many; then the rest.
fn main(rt: HostRuntime) -> io::Result<()> {
    run(&rt, 1, b"", b"", b"")?;
    run(&rt, 2, b"cmr10.72.pk", b"", b"")?;
    run(&rt, 4, b"cmr10.72.pk", b"65", b"pgm")?;
    run(&rt, 4, b"cmr10.72.pk", b"65", b"pbm1")?;
    run(&rt, 5, b"cmr10.72.pk", b"65", b"pbm")?;
    pictures(&rt)?;
    codes(&rt)?;
    fonts(&rt)
}
