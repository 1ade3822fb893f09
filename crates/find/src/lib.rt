// The packet of a code in an accepted font.
#![tactic(auto)]

ghost use Rattle.find.specs.Places.{Accepted, IsFirst, IsFound};

use packet::{Outline, Piece};

// The place behind the preamble of an accepted font.
// Kept: that the font is accepted stays a clause. A struct of such a font would be made in draw and in listing, and opened at their next call.
pub fn first_place(font: &[u8]) -> usize
    requires { Accepted font.now }
    ensures { IsFirst font.now result }
{
    usize::from(font[2]) + pieces::PREAMBLE
}

// The packet of a code, wherever it stands: the place of its flag, and its outline.
// Kept: the loop goes on at the place that each piece says, so it counts no index; what is done with a packet is not what listing does.
pub fn packet_of(font: &[u8], code: usize) -> Option<(usize, Outline)>
    requires { Accepted font.now }
    ensures { IsFound font.now code result }
{
    let mut at = first_place(font);
    loop {
        match pieces::piece_at(font, at) {
            Ok(Piece::Packet(x)) => {
                if x.code == code {
                    return Some((at, x));
                }
                at = x.end;
            }
            Ok(Piece::Command(next)) => at = next,
            Ok(Piece::Last) => return None,
            Err(_) => return None,
        }
    }
}
