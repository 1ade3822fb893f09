// Lists a font of standard input: one key=value on each line; a refused font prints its refusal and its place.
#![tactic(auto)]

use std::io;

// The font of standard input.
fn main(rt: HostRuntime) -> io::Result<()> {
    list_lines::list_from(&mut rt.reader(), &mut io::writer(&rt))
}
