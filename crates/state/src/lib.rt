// The state within a raster, by value: where the next pixel stands, and what its row has had.
#![tactic(auto)]

ghost use Rattle.std.specs.Prelude.{◌+◌, ◌*◌, ◌/◌, ◌≤◌, ◌<◌, ◌≡◌, not};
ghost use Rattle.format.specs.Reading.{start, row_ends, advanced, with_repeat, after_run, after_repeat};
ghost use Rattle.state.specs.Moves.{plain, coloured, moved_to, Within};

use refusals::Refusal;

// The column and the row that come next, the repeat that the row has had (0 for none), and whether the next run is black.
// (Kept, here and in walk, part, size and run_bytes: a repeat is the number of rows that are sent again, and 0 is one of its values.)
#[derive(Clone, Copy)]
pub struct State {
    pub column: usize,
    pub row: usize,
    pub repeat: usize,
    pub black: bool,
}

impl State {
    // Before the first pixel.
    pub fn start(black: bool) -> State
        ensures { result ≡ coloured black start }
    {
        State {
            column: 0,
            row: 0,
            repeat: 0,
            black,
        }
    }

    // The row is full, with its repeats, and q - 1 rows after it.
    pub fn row_end(self, w: usize, q: usize) -> State
        requires { (1 ≤ q) × (q * w ≤ self.column) × (self.row + self.repeat + q ≤ 65536) }
        ensures { result ≡ coloured self.black (row_ends w q (plain self)) }
    {
        State {
            column: self.column - q * w,
            row: self.row + self.repeat + q,
            repeat: 0,
            ..self
        }
    }

    // After a run of n pixels that fits. Most end no row or one, and need no division.
    pub fn past(self, w: usize, n: usize) -> State
        requires { (1 ≤ w) × (self.column + n ≤ 65536) × (self.row + self.repeat + (self.column + n) / w ≤ 65536) }
        ensures { result ≡ coloured (not self.black) (row_ends w ((self.column + n) / w) (advanced n (plain self))) }
    {
        let column = self.column + n;
        let on = State {
            column,
            black: !self.black,
            ..self
        };
        if column < w {
            return on;
        }
        if column - w < w {
            return on.row_end(w, 1);
        }
        on.row_end(w, column / w)
    }

    // After a repeat of n that fits.
    pub fn repeated(self, n: usize) -> State
        ensures { result ≡ coloured self.black (with_repeat n (plain self)) }
    {
        State { repeat: n, ..self }
    }

    // A run of n pixels, no longer than the pixels left. Most end in their row, and need no product.
    pub fn run(self, w: usize, h: usize, n: usize) -> Result<State, Refusal>
        requires { Within w h (plain self) }
        ensures { result ≡ moved_to (not self.black) (after_run w h n (plain self)) }
    {
        let room = w - self.column;
        if n < room {
            return Ok(self.past(w, n));
        }
        let left = room + (h - self.row - self.repeat - 1) * w;
        if left < n {
            return Err(Refusal::TooMany);
        }
        Ok(self.past(w, n))
    }

    // A repeat of n, no larger than the rows after the current one.
    pub fn repeat(self, h: usize, n: usize) -> Result<State, Refusal>
        requires { self.row < h }
        ensures { result ≡ moved_to self.black (after_repeat h n (plain self)) }
    {
        if h - self.row - 1 < n {
            return Err(Refusal::TooMany);
        }
        Ok(self.repeated(n))
    }
}
