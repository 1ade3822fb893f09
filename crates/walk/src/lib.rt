// The count list of a bitmap, one run at a time, with no list stored: a cursor by value walks the rows kept.
#![tactic(auto)]

ghost use Rattle.std.specs.Prelude.{◌+◌, ◌*◌, ◌≤◌, ◌<◌, ◌≡◌, length, take, drop};
ghost use Rattle.format.specs.Lists.{same};
ghost use Rattle.format.specs.Counts.{mixed};
ghost use Rattle.walk.specs.Walk.{begin, Inside, Counted, RowAt, Removal, Entered, Standing, Open, Ended, InRow};

// Pixels in rows of w. Of a whole number of rows nothing is said: a walk asks that of its cursor.
#[derive(Clone, Copy)]
pub struct Rows<'a> {
    pub pixels: &'a [u8],
    pub w: usize,
}

// The pixels of a bitmap of h such rows, which are not more than 01 allows.
#[derive(Clone, Copy)]
pub struct Bitmap<'a> {
    pub rows: Rows<'a>,
    pub h: usize,
    pub ghost size: { length rows.pixels.now ≡ rows.w * h },
    pub ghost small: { length rows.pixels.now ≤ 65536 },
}

// A place in the joined string: the next pixel and the end of its row, where the next row kept begins, the repeats of this row that
// have not found their place, and the pixel before.
// Kept: that it lies in some rows stays a clause, since a part keeps a cursor without the rows.
#[derive(Clone, Copy)]
pub struct Cursor {
    pub at: usize,
    pub end: usize,
    pub next: usize,
    pub owed: usize,
    pub before: u8,
}

// A run: its length, the repeat that stands before it (0 for none), and the cursor after it.
#[derive(Clone, Copy)]
pub struct Count {
    pub length: usize,
    pub repeat: usize,
    pub cursor: Cursor,
}

// A run as far as it is taken, and its colour.
#[derive(Clone, Copy)]
struct Taken {
    colour: u8,
    run: Count,
}

// Where the next row kept begins, and the number of rows removed before it.
#[derive(Clone, Copy)]
struct Removed {
    next: usize,
    n: usize,
}

// The row from at on is neither all white nor all black.
fn mixed_row(rows: Rows, at: usize) -> bool
    requires { (0 < rows.w) × (at + rows.w ≤ length rows.pixels.now) }
    ensures { result ≡ mixed (take rows.entry.w (drop at rows.entry.pixels.now)) }
{
    let x = rows.pixels[at];
    scan::first_other(rows.pixels, at, rows.w, x) < rows.w || 1 < x
}

// The rows from x and from y on are equal.
fn same_rows(rows: Rows, x: usize, y: usize) -> bool
    requires { (x ≤ y) × (y + rows.w ≤ length rows.pixels.now) }
    ensures { result ≡ same (take rows.entry.w (drop x rows.entry.pixels.now)) (take rows.entry.w (drop y rows.entry.pixels.now)) }
{
    scan::first_difference(rows.pixels, x, y, rows.w) == rows.w
}

// The rows under the one at `at` that are removed and counted as its repeats.
// Kept: a while, since the place where it stops is part of the answer.
fn repeats_of(rows: Rows, at: usize) -> Removed
    requires { RowAt rows.pixels.now rows.w at }
    ensures { Removal rows.entry.pixels.now rows.entry.w at result.next result.n }
{
    let mut next = at + rows.w;
    let mut n: usize = 0;
    while next < rows.pixels.len() {
        if !same_rows(rows, at, next) {
            return Removed { next, n };
        }
        if n == 0 && !mixed_row(rows, at) {
            return Removed { next, n };
        }
        next += rows.w;
        n += 1;
    }
    Removed { next, n }
}

// The cursor in the next row, where its row is full.
fn enter(rows: Rows, c: Cursor) -> Cursor
    requires { (Inside rows.pixels.now rows.w c) × (c.end ≤ c.at) × (c.next < length rows.pixels.now) }
    ensures { Entered rows.entry.pixels.now rows.entry.w c result }
{
    let r = repeats_of(rows, c.next);
    Cursor {
        at: c.next,
        end: c.next + rows.w,
        next: r.next,
        owed: r.n,
        before: c.before,
    }
}

// The repeat that stands before a pixel x, of those owed.
fn repeat_before(x: u8, before: u8, owed: usize) -> usize
    ensures { Standing x before owed result }
{
    if x == before { 0 } else { owed }
}

// The run taken so far, where its row is full, goes on in the rows that follow.
fn across(rows: Rows, t: Taken) -> Count
    requires { Open rows.pixels.now rows.w t.colour t.run.length t.run.repeat t.run.cursor }
    ensures { Ended rows.entry.pixels.now rows.entry.w t.colour t.run.length t.run.repeat t.run.cursor result }
{
    let x = t.colour;
    let mut r = t.run;
    loop {
        let next = r.cursor.next;
        if rows.pixels.len() <= next || rows.pixels[next] != x {
            return r;
        }
        let mut d = enter(rows, r.cursor);
        let n = scan::first_other(rows.pixels, d.at, d.end - d.at, x);
        let m = repeat_before(x, d.before, d.owed);
        d.at += n;
        d.owed -= m;
        d.before = x;
        r = Count {
            length: r.length + n,
            repeat: r.repeat + m,
            cursor: d,
        };
        if d.at < d.end {
            return r;
        }
    }
}

// The next run as far as it goes in its row; where the row is full, none of it yet.
fn run_in_row(b: &[u8], c: Cursor) -> Taken
    requires { (c.end ≤ length b.now) × (c.end ≤ c.at → c.next < length b.now) }
    ensures { InRow b.now c result.colour result.run.length result.run.repeat result.run.cursor }
{
    if c.end <= c.at {
        let run = Count {
            length: 0,
            repeat: 0,
            cursor: c,
        };
        return Taken {
            colour: b[c.next],
            run,
        };
    }
    let colour = b[c.at];
    let length = scan::first_other(b, c.at, c.end - c.at, colour);
    let repeat = repeat_before(colour, c.before, c.owed);
    let cursor = Cursor {
        at: c.at + length,
        end: c.end,
        next: c.next,
        owed: c.owed - repeat,
        before: colour,
    };
    let run = Count {
        length,
        repeat,
        cursor,
    };
    Taken { colour, run }
}

// The next run of the joined string, or none at its end.
pub fn next_run(rows: Rows, c: Cursor) -> Option<Count>
    requires { Inside rows.pixels.now rows.w c }
    ensures { Counted rows.entry.pixels.now rows.entry.w c result }
{
    if c.end <= c.at && rows.pixels.len() <= c.next {
        return None;
    }
    let t = run_in_row(rows.pixels, c);
    let d = t.run.cursor;
    if d.at < d.end {
        return Some(t.run);
    }
    Some(across(rows, t))
}

// The cursor before the first pixel, after an imaginary white one.
pub fn start() -> Cursor
    ensures { result ≡ begin }
{
    Cursor {
        at: 0,
        end: 0,
        next: 0,
        owed: 0,
        before: 0,
    }
}
