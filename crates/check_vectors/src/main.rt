// The checker run on outside cases: standard input holds fonts, each behind its length in four bytes; a line is printed for each,
// `ok CHARS` or `refuse NUMBER PLACE`. A font that is cut off gets the line `bad case`.
#![tactic(auto)]

use cases::{Case, Cases};
use refusals::Refused;
use std::io;
use std::io::Write;

// The line of an answer.
fn print_line<W: Write>(out: &mut W, checked: Result<usize, Refused>) -> io::Result<()> {
    match checked {
        Ok(n) => writeln!(out, "ok {n}"),
        Err(x) => writeln!(out, "{x}"),
    }
}

// Each font of the cases.
fn check_each<W: Write>(out: &mut W, s: &[u8]) -> io::Result<()> {
    for case in Cases::new(s, |_| 4) {
        let Ok(Case { bytes, .. }) = case else {
            return lines::print_bad(out);
        };
        print_line(out, font::check(bytes))?;
    }
    Ok(())
}

// All cases of standard input.
fn main(rt: HostRuntime) -> io::Result<()> {
    let mut room = cases::empty::<524288>();
    let cases = lines::read_into(&mut rt.reader(), &mut room)?;
    check_each(&mut io::writer(&rt), cases)
}
