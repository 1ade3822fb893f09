// The form of a packet, picked for its measures and the number of its raster bytes.
#![tactic(auto)]

ghost use Rattle.std.specs.Prelude.{◌≡◌};
ghost use Rattle.escapement.specs.Count.{whole_of};
ghost use Rattle.measures.specs.Said.{said};
ghost use Rattle.pick.specs.Picks.{Judged, Picks, plain_in, narrow_in, long_in};

use escapement::{Pixels, Scaled};
use measures::Measures;

// Each form has fewer raster bytes than this: its lengths are below 1,024, 196,608 and 2^31, and count 8, 13 and 28 fixed bytes.
const SHORT_TOP: usize = 1016;

const EXTENDED_TOP: usize = 196595;

const LONG_TOP: usize = 2147483620;

// The form picked: its escapement in whole pixels, hoff and voff, signed, in 8, 16 or 32 bits.
#[derive(Clone, Copy, Debug, PartialEq, Eq)]
pub enum Picked {
    Short(Pixels, i8, i8),
    Extended(Pixels, i16, i16),
    Long(i32, i32),
}

// z is from 0 to top - 1.
fn held_plain(z: i64, top: u64) -> bool
    ensures { result ≡ plain_in top z }
{
    0 <= z && sign::magnitude(z) < top
}

// A short or an extended packet holds every field but the length: fields below top, and signed ones from -half to half - 1.
fn narrow_held(m: Measures, dm: Pixels, top: u64, half: u64) -> bool
    ensures { result ≡ narrow_in top half (whole_of dm) (said m) }
{
    // & and not &&: no test is worth leaving early.
    (Scaled::from(dm) == m.dx)
        & (m.dy == Scaled(0))
        & held_plain(m.tfm, 16777216)
        & (u64::from(dm.0) < top)
        & (sign::magnitude(m.w) < top)
        & (sign::magnitude(m.h) < top)
        & (sign::magnitude(m.hoff) < half)
        & (sign::magnitude(m.voff) < half)
}

// A long packet holds every field but the length.
fn long_held(m: Measures) -> bool
    ensures { result ≡ long_in (said m) }
{
    let half: u64 = 2147483648;
    (sign::magnitude(m.tfm) < half)
        & (sign::magnitude(m.dx.0) < half)
        & (sign::magnitude(m.dy.0) < half)
        & (sign::magnitude(m.hoff) < half)
        & (sign::magnitude(m.voff) < half)
}

// The first of short, extended, long that holds every field and the length, for n raster bytes; or none.
pub fn pick_form(m: Measures, n: usize) -> Option<Picked>
    requires { Judged (said m) }
    ensures { Picks (said m) n result }
{
    let dm = m.dx.whole();
    if (n < SHORT_TOP) & narrow_held(m, dm, 256, 128) {
        Some(Picked::Short(dm, m.hoff as i8, m.voff as i8))
    } else if (n < EXTENDED_TOP) & narrow_held(m, dm, 65536, 32768) {
        Some(Picked::Extended(dm, m.hoff as i16, m.voff as i16))
    } else if (n < LONG_TOP) & long_held(m) {
        Some(Picked::Long(m.hoff as i32, m.voff as i32))
    } else {
        None
    }
}
