// The magnitude of a signed number.
#![tactic(auto)]

ghost use Rattle.std.specs.Prelude.{◌<◌, ◌≡◌};
ghost use Rattle.std.specs.Int.Signed.{mag};

// z itself, or n for -(n + 1), so that the least number of 64 bits has a magnitude too.
pub fn magnitude(z: i64) -> u64
    ensures { (result ≡ mag z) × (result < 9223372036854775808) }
{
    if z < 0 {
        (0 - (z + 1)) as u64
    } else {
        z as u64
    }
}
