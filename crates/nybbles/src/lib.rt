// The nybbles of a slice.
#![tactic(auto)]

ghost use Rattle.std.specs.Prelude.{◌*◌, ◌<◌, length};
ghost use Rattle.nybbles.specs.Nybble.{NybbleAt};

// The nybble at i: the high half of byte i / 2, then the low half.
pub fn nybble(s: &[u8], i: usize) -> usize
    requires { i < 2 * length s.now }
    ensures { NybbleAt s.now i result }
{
    let b = usize::from(s[i / 2]);
    if i % 2 == 0 { b / 16 } else { b % 16 }
}
