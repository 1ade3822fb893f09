// The listing run on real fonts: standard input holds fonts, each behind its length in four bytes; the listing of each is printed, and then
// that of a file that is one byte too long, whose first 65,536 bytes are a font. A font that is cut off gets the line `bad case`.
#![tactic(auto)]

use cases::{Case, Cases};
use std::fs::File;
use std::io;
use std::io::Write;

// Each font of the cases.
fn list_each<W: Write>(out: &mut W, s: &[u8]) -> io::Result<()> {
    for case in Cases::new(s, |_| 4) {
        let Ok(Case { bytes, .. }) = case else {
            return lines::print_bad(out);
        };
        list_lines::print_listing(out, bytes)?;
    }
    Ok(())
}

// All cases of standard input, and the file.
fn main(rt: HostRuntime) -> io::Result<()> {
    let mut room = cases::empty::<262144>();
    let cases = lines::read_into(&mut rt.reader(), &mut room)?;
    let mut out = io::writer(&rt);
    list_each(&mut out, cases)?;
    list_lines::list_from(&mut File::open(&rt, "long.pk")?, &mut out)
}
