// A raster of runs and repeats, known to be whole, drawn into a lent buffer, a byte for each pixel.
#![tactic(auto)]

ghost use Rattle.std.specs.Prelude.{◌+◌, ◌*◌, ◌≤◌, ◌<◌, ◌≡◌, ◌++◌, length, drop};
ghost use Rattle.format.specs.Rasters.{colour};
ghost use Rattle.format.specs.Reading.{ReadWhole};
ghost use Rattle.format.specs.Drawing.{raster_pixels};
ghost use Rattle.state.specs.Moves.{plain};
ghost use Rattle.runs.specs.Runs.{with_run};

use items::Item;
use packed::Factor;
use state::State;

// A run of n pixels from the state on: its row is filled, and sent once more for each repeat, and the rest of the run follows.
fn draw_run(buf: &mut [u8], w: usize, state: State, n: usize)
    requires { (state.column < w) × (state.row * w + state.repeat * w + state.column + n ≤ length buf.old) }
    ensures { buf.new ≡ with_run w n (colour state.black) (plain state) buf.old }
{
    let at = state.row * w + state.column;
    let room = w - state.column;
    let v = u8::from(state.black);
    if n < room {
        fill::fill_run(buf, at, n, v);
        return;
    }
    fill::fill_run(buf, at, room, v);
    let next = fill::copy_rows(buf, at + room, w, state.repeat);
    fill::fill_run(buf, next, n - room, v);
}

// The raster bytes s, w by h pixels of runs and repeats, fill the first w * h bytes; the bytes beyond stay.
pub fn draw_runs(s: &[u8], f: Factor, black: bool, w: usize, h: usize, buf: &mut [u8])
    requires { (1 ≤ w) × (1 ≤ h) × (w * h ≤ 65536) × (w * h ≤ length buf.old) × ReadWhole f.n w h s.now }
    ensures { buf.new ≡ raster_pixels f.n black w h s.now ++ drop (w * h) buf.old }
{
    let mut at: usize = 0;
    let mut state = State::start(black);
    while state.row < h {
        match items::item_at(s, at, f, state.repeat) {
            Ok(Item::Run(n, next)) => {
                draw_run(buf, w, state, n);
                state = state.past(w, n);
                at = next;
            }
            Ok(Item::Repeat(n, next)) => {
                state = state.repeated(n);
                at = next;
            }
            Err(_) => unreachable!(),
        }
    }
}
