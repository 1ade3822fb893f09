// The two counts of an escapement, which are never taken for one another.
#![tactic(auto)]

ghost use Rattle.std.specs.Prelude.{◌≡◌};
ghost use Rattle.format.specs.Measures.{to_scaled, whole_pixels};
ghost use Rattle.escapement.specs.Count.{whole_of, scaled_of, capped};

// In whole pixels.
#[derive(Clone, Copy, Debug, PartialEq, Eq)]
pub struct Pixels(pub u32);

// In pixels times 65,536.
#[derive(Clone, Copy, Debug, PartialEq, Eq)]
pub struct Scaled(pub i64);

// The one conversion, in 64 bits: 65,535 pixels are 4,294,901,760.
impl From<Pixels> for Scaled {
    ghost from_gives = { λ p d. scaled_of d ≡ to_scaled (whole_of p) };

    fn from(p: Pixels) -> Scaled {
        Scaled(i64::from(p.0) * 65536)
    }
}

impl Scaled {
    // The pixels to try; whether they are this count, only the conversion says. 0 where they are more than 65,535, and for a negative count.
    // Kept: 0 is no refusal, since whoever tries the pixels converts them back; an Option would only give the packer one more way out.
    pub fn whole(self) -> Pixels
        ensures { whole_of result ≡ capped (whole_pixels (scaled_of self)) }
    {
        if self.0 < 0 {
            return Pixels(0);
        }
        let n = sign::magnitude(self.0) / 65536;
        if 65535 < n {
            return Pixels(0);
        }
        Pixels(n as u32)
    }
}
