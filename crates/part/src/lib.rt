// A part of the count list of a bitmap, kept in fixed memory: most bitmaps are walked once, and the walk is called from one place.
#![tactic(auto)]

ghost use Rattle.std.specs.Prelude.{◌≡◌, ◌≤◌, ◌↔◌, IsTrue};
ghost use Rattle.walk.specs.Walk.{begin, Inside};
ghost use Rattle.part.specs.Parts.{taken, Kept, First};

use walk::{Cursor, Rows};

// How many runs a part has room for.
pub const ROOM: usize = 512;

// A run: its length, and the repeat that stands before it, 0 for none.
#[derive(Clone, Copy)]
pub struct Run {
    pub length: u32,
    pub repeat: u32,
}

// No run.
const NONE: Run = Run {
    length: 0,
    repeat: 0,
};

// The first n of the runs are kept, and the cursor is behind them. A full part is not taken for the whole list.
// Kept: an array with its number, since nothing here allocates.
#[derive(Clone, Copy)]
pub struct Part {
    pub runs: [Run; ROOM],
    pub n: usize,
    pub cursor: Cursor,
}

impl Part {
    // A full part of no bitmap.
    pub fn new() -> Part
        ensures { result.n ≡ ROOM }
    {
        Part {
            runs: [NONE; ROOM],
            n: ROOM,
            cursor: walk::start(),
        }
    }

    // What is kept is not the whole list.
    pub fn forget(&mut self)
        ensures { self.new.n ≡ ROOM }
    {
        self.n = self.runs.len();
    }

    // There is room for no more.
    pub fn is_full(&self) -> bool
        ensures { IsTrue result ↔ (ROOM ≤ self.now.n) }
    {
        ROOM <= self.n
    }

    // The runs kept.
    pub fn runs(&self) -> &[Run]
        requires { self.now.n ≤ ROOM }
        ensures { result.now ≡ taken self.now }
    {
        &self.runs[..self.n]
    }

    // The next runs from c on, as many as there is room for.
    pub fn fill(&mut self, rows: Rows, c: Cursor)
        requires { Inside rows.pixels.now rows.w c }
        ensures { Kept rows.entry.pixels.now rows.entry.w c self.new }
    {
        let mut d = c;
        for n in 0..ROOM {
            let Some(next) = walk::next_run(rows, d) else {
                self.n = n;
                self.cursor = d;
                return;
            };
            self.runs[n] = Run {
                length: next.length as u32,
                repeat: next.repeat as u32,
            };
            let e = next.cursor;
            // Kept: field by field, since a copy of the whole would copy its padding too, which is slower.
            d = Cursor {
                at: e.at,
                end: e.end,
                next: e.next,
                owed: e.owed,
                before: e.before,
            };
        }
        self.n = ROOM;
        self.cursor = d;
    }

    // The first runs of the list.
    pub fn restart(&mut self, rows: Rows)
        requires { Inside rows.pixels.now rows.w begin }
        ensures { Kept rows.entry.pixels.now rows.entry.w begin self.new }
    {
        self.fill(rows, walk::start());
    }

    // The runs behind those kept.
    pub fn walk_on(&mut self, rows: Rows)
        requires { Inside rows.pixels.now rows.w self.old.cursor }
        ensures { Kept rows.entry.pixels.now rows.entry.w self.old.cursor self.new }
    {
        self.fill(rows, self.cursor);
    }

    // The first part, which is walked again unless it is the whole list and still kept.
    pub fn first(&mut self, rows: Rows)
        requires { Inside rows.pixels.now rows.w begin × First rows.pixels.now rows.w self.old }
        ensures { Kept rows.entry.pixels.now rows.entry.w begin self.new }
    {
        if self.is_full() {
            self.restart(rows);
        }
    }
}
