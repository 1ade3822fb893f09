// Looks at one character: look FONT CODE prints it as rows of stars and points, look FONT CODE pbm as a plain PBM.
#![tactic(auto)]

use std::env::{Env, FillError};
use std::io;

// How many arguments there are, the program's own name among them.
fn arg_count(rt: &impl Env) -> usize {
    for i in 0..usize::MAX {
        if let Err(FillError::NotPresent) = rt.arg(i, &mut []) {
            return i;
        }
    }
    usize::MAX
}

// The arguments, as far as they are there.
fn main(rt: HostRuntime) -> io::Result<()> {
    // Kept: fixed room, since nothing here allocates.
    let mut path = [0u8; 4096];
    let mut code = [0u8; 4096];
    let mut word = [0u8; 4096];
    let n = rt.arg(1, &mut path).unwrap_or(0);
    let k = rt.arg(2, &mut code).unwrap_or(0);
    let m = rt.arg(3, &mut word).unwrap_or(0);
    looking::run(
        &rt,
        arg_count(&rt),
        &path[..n],
        &code[..k],
        &word[..m],
        &mut io::writer(&rt),
        &mut rt.stderr(),
    )
}
