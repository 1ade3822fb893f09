// The piece at a place of a font.
#![tactic(auto)]

ghost use Rattle.std.specs.Prelude.{◌≤◌, ◌≡◌, ◌∷◌, length, drop};
ghost use Rattle.format.specs.Pieces.{length_kind};
ghost use Rattle.format.specs.Decoding.{number, value_of};
ghost use Rattle.format.specs.Verdict.{special_at, numeric_at, step};
ghost use Rattle.packet.specs.Outlines.{piece_of};

use packet::Piece;
use refusals::Refusal;

// The bytes of a preamble beside its comment: 247, 89, the comment's length, and four numbers of four bytes.
pub const PREAMBLE: usize = 19;

// 240 to 243: a length in k bytes, which stand at `at`, then that many bytes, which are stepped over.
fn special(font: &[u8], at: usize, k: usize) -> Result<Piece, Refusal>
    requires { (at ≤ length font.now) × (1 ≤ k) × (k ≤ 4) }
    ensures { result ≡ piece_of (length font.now) (special_at k (value_of (length_kind k) (number k (drop at font.now))) (drop at font.now)) }
{
    let room = font.len() - at;
    if room < k {
        return Err(Refusal::FileEnds);
    }
    let n = fields::number_at(font, at, k);
    if fields::NEGATIVE <= n {
        return Err(Refusal::BadLength);
    }
    let bytes = n as usize;
    if room - k < bytes {
        return Err(Refusal::FileEnds);
    }
    Ok(Piece::Command(at + k + bytes))
}

// 244: four bytes, which stand at `at`.
fn numeric(font: &[u8], at: usize) -> Result<Piece, Refusal>
    requires { at ≤ length font.now }
    ensures { result ≡ piece_of (length font.now) (numeric_at (drop at font.now)) }
{
    if font.len() - at < 4 {
        return Err(Refusal::FileEnds);
    }
    Ok(Piece::Command(at + 4))
}

// The piece whose first byte is b, with what follows it at `at`.
fn behind(font: &[u8], at: usize, b: usize) -> Result<Piece, Refusal>
    requires { at ≤ length font.now }
    ensures { result ≡ piece_of (length font.now) (step (b ∷ drop at font.now)) }
{
    match b {
        0..=239 => packet::packet_at(font, at, b),
        240..=243 => special(font, at, b - 239),
        244 => numeric(font, at),
        245 => Ok(Piece::Last),
        246 => Ok(Piece::Command(at)),
        _ => Err(Refusal::NoPiece),
    }
}

// The piece that begins at `at`. Built into its callers, so that no outline is copied for a command.
#[inline(always)]
pub fn piece_at(font: &[u8], at: usize) -> Result<Piece, Refusal>
    ensures { result ≡ piece_of (length font.now) (step (drop at font.now)) }
{
    if font.len() <= at {
        return Err(Refusal::FileEnds);
    }
    behind(font, at + 1, usize::from(font[at]))
}
