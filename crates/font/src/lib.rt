// Checking a font: its number of characters, or the first refusal with its place.
#![tactic(auto)]

ghost use Rattle.std.specs.Prelude.{◌≤◌, ◌<◌, ◌≡◌, false, length, drop, replicate};
ghost use Rattle.format.specs.Refusals.{answers, told};
ghost use Rattle.format.specs.Cut.{chars};
ghost use Rattle.format.specs.Verdict.{step, begin, check};
ghost use Rattle.refusals.specs.Answers.{to_result};
ghost use Rattle.packet.specs.Standing.{InFont, raster_of};
ghost use Rattle.font.specs.Answer.{in_numbers};
ghost use Rattle.font.specs.Turns.{IsPacketTurn, IsTurn, IsEnding, IsOnward};

use packet::{Outline, Piece};
use refusals::{Refusal, Refused};

// A piece judged: a packet's code and the place behind it; the place behind a command; the 245.
// (Kept beside packet::Piece: of a packet judged nothing else is asked, and a copy of its outline shows in the time.)
#[derive(Clone, Copy)]
enum Turn {
    Packet(usize, usize),
    Command(usize),
    Last,
}

// A packet behind others with the codes seen: 9, then the raster's faults.
fn packet_turn(font: &[u8], x: Outline, seen: &[bool; 256]) -> Result<Turn, Refusal>
    requires { InFont font.now x }
    ensures { IsPacketTurn seen.now x (raster_of font.now x) result }
{
    if seen[x.code] {
        return Err(Refusal::CodeTwice);
    }
    judge::judge(&font[x.raster..x.end], x.f, x.black, x.w, x.h)?;
    Ok(Turn::Packet(x.code, x.end))
}

// The piece at `at`, behind packets with the codes seen.
fn turn_at(font: &[u8], at: usize, seen: &[bool; 256]) -> Result<Turn, Refusal>
    ensures { IsTurn seen.now (length font.now) (step (drop at font.now)) result }
{
    match pieces::piece_at(font, at)? {
        Piece::Packet(x) => packet_turn(font, x, seen),
        Piece::Command(next) => Ok(Turn::Command(next)),
        Piece::Last => Ok(Turn::Last),
    }
}

// At the 245, behind so many characters: 15 before 14.
fn ending(font: &[u8], at: usize, chars: usize) -> Result<usize, Refused>
    requires { (at < length font.now) × (length font.now ≤ 65536) }
    ensures { IsEnding font.now at chars result }
{
    if chars == 0 {
        return Err(Refusal::NoPacket.at(at));
    }
    if font.len() % 4 != 0 {
        return Err(Refusal::BadEnding.at(at));
    }
    if !font[at + 1..].iter().all(|&b| b == 246) {
        return Err(Refusal::BadEnding.at(at));
    }
    Ok(chars)
}

// No code is seen.
fn none_seen() -> [bool; 256]
    ensures { result ≡ replicate 256 false }
{
    [false; 256]
}

// The pieces from a place on, behind the preamble.
// Kept: the loop goes on at the place that each piece says, so it counts no index.
fn onward(font: &[u8], start: usize) -> Result<usize, Refused>
    requires { (start ≤ length font.now) × (length font.now ≤ 65536) }
    ensures { IsOnward font.now start result }
{
    let mut seen = none_seen();
    let mut chars: usize = 0;
    let mut at = start;
    loop {
        match turn_at(font, at, &seen) {
            Ok(Turn::Packet(code, next)) => {
                seen[code] = true;
                chars += 1;
                at = next;
            }
            Ok(Turn::Command(next)) => at = next,
            Ok(Turn::Last) => return ending(font, at, chars),
            Err(x) => return Err(x.at(at)),
        }
    }
}

// 2, then 3, then the preamble whole.
fn begin(font: &[u8]) -> Result<usize, Refused>
    requires { length font.now ≤ 65536 }
    ensures { result ≡ to_result (answers chars (begin font.now)) }
{
    let n = font.len();
    if n == 0 {
        return Err(Refusal::NoPreamble.at(0));
    }
    if font[0] != 247 {
        return Err(Refusal::NoPreamble.at(0));
    }
    if n == 1 {
        return Err(Refusal::FileEnds.at(0));
    }
    if font[1] != 89 {
        return Err(Refusal::WrongId.at(0));
    }
    if n == 2 {
        return Err(Refusal::FileEnds.at(0));
    }
    let start = usize::from(font[2]) + pieces::PREAMBLE;
    if n < start {
        return Err(Refusal::FileEnds.at(0));
    }
    onward(font, start)
}

// Any bytes: the number of characters, or the first refusal with its place.
pub fn check(font: &[u8]) -> Result<usize, Refused>
    ensures { in_numbers result ≡ told (check font.now) }
{
    if 65536 < font.len() {
        return Err(Refusal::TooLong.at(0));
    }
    begin(font)
}
