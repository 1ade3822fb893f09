// A raster judged without drawing: that it fills its pixels to the last one, or its first fault.
#![tactic(auto)]

ghost use Rattle.std.specs.Prelude.{◌*◌, ◌≤◌, ◌≡◌, true, length};
ghost use Rattle.format.specs.Limits.{in_limits};
ghost use Rattle.format.specs.Rasters.{bytes_of_bits};
ghost use Rattle.format.specs.Reading.{turn, finish, reading, bits_read, items};
ghost use Rattle.packed.specs.Answer.{from};
ghost use Rattle.state.specs.Moves.{plain, Within};
ghost use Rattle.judge.specs.Judgement.{to_turn, judged};

use items::Item;
use packed::Factor;
use refusals::Refusal;
use state::State;

// The item at `at`, read and judged: the state after it and the place of the next nybble.
fn turn_at(
    s: &[u8],
    at: usize,
    f: Factor,
    w: usize,
    h: usize,
    state: State,
) -> Result<(State, usize), Refusal>
    requires { Within w h (plain state) }
    ensures { result ≡ to_turn s.now state.black (turn f.n w h (plain state) (from s.now at)) }
{
    match items::item_at(s, at, f, state.repeat)? {
        Item::Run(n, next) => Ok((state.run(w, h, n)?, next)),
        Item::Repeat(n, next) => Ok((state.repeat(h, n)?, next)),
    }
}

// When h rows are full: nothing is left from `at` on, or the spare nybble, zero.
fn finish(s: &[u8], at: usize) -> Result<(), Refusal>
    requires { at ≤ 2 * length s.now }
    ensures { result ≡ judged (finish (from s.now at)) }
{
    let end = 2 * s.len();
    if end <= at {
        return Ok(());
    }
    if 1 < end - at {
        return Err(Refusal::LeftOver);
    }
    if nybbles::nybble(s, at) != 0 {
        return Err(Refusal::LeftOver);
    }
    Ok(())
}

// With f from 0 to 13: the runs and repeats up to h full rows.
fn judge_runs(s: &[u8], f: Factor, w: usize, h: usize, black: bool) -> Result<(), Refusal>
    requires { (1 ≤ w) × (1 ≤ h) × (w * h ≤ 65536) }
    ensures { result ≡ judged (reading f.n w h s.now) }
{
    let mut at: usize = 0;
    let mut state = State::start(black);
    while state.row < h {
        (state, at) = turn_at(s, at, f, w, h, state)?;
    }
    finish(s, at)
}

// With f = 14: n bits, the spare bits of the last byte zero.
fn judge_bits(s: &[u8], n: usize) -> Result<(), Refusal>
    requires { (1 ≤ n) × (n ≤ 65536) }
    ensures { result ≡ judged (bits_read n (bytes_of_bits n) s.now) }
{
    let k = (n + 7) / 8;
    if s.len() < k {
        return Err(Refusal::RasterEnds);
    }
    if k < s.len() {
        return Err(Refusal::LeftOver);
    }
    let last = usize::from(s[k - 1]);
    if last % (1 << (8 * k - n)) != 0 {
        return Err(Refusal::LeftOver);
    }
    Ok(())
}

// The raster bytes s of w by h pixels.
// Kept: f, the black bit, w and h are fields of packet::Outline. A struct of the four would be filled for one call here and one of
// raster::draw_raster, and taken apart again at once.
pub fn judge(s: &[u8], f: usize, black: bool, w: usize, h: usize) -> Result<(), Refusal>
    requires { (f ≤ 14) × (in_limits w h ≡ true) }
    ensures { result ≡ judged (items f w h s.now) }
{
    if w == 0 {
        return if s.is_empty() {
            Ok(())
        } else {
            Err(Refusal::LeftOver)
        };
    }
    match Factor::new(f) {
        None => judge_bits(s, w * h),
        Some(f) => judge_runs(s, f, w, h, black),
    }
}
