// Filling a part of a lent buffer, and sending its last row once more.
#![tactic(auto)]

ghost use Rattle.std.specs.Prelude.{◌+◌, ◌*◌, ◌≤◌, ◌≡◌, ◌++◌, length, take, drop};
ghost use Rattle.fill.specs.Rows.{filled, last_row, times};

// Fills n bytes from `at` on with v.
pub fn fill_run(buf: &mut [u8], at: usize, n: usize, v: u8)
    requires { at + n ≤ length buf.old }
    ensures { buf.new ≡ filled buf.old at n v }
{
    buf[at..at + n].fill(v);
}

// The w bytes before `at` once more at `at`.
fn copy_row(buf: &mut [u8], at: usize, w: usize)
    requires { (w ≤ at) × (at + w ≤ length buf.old) }
    ensures { buf.new ≡ take at buf.old ++ (last_row w (take at buf.old) ++ drop (at + w) buf.old) }
{
    buf.copy_within(at - w..at, at);
}

// The same t times; it answers the place behind.
pub fn copy_rows(buf: &mut [u8], at: usize, w: usize, t: usize) -> usize
    requires { (w ≤ at) × (at + t * w ≤ length buf.old) }
    ensures { (result ≡ at + t * w) × (buf.new ≡ take at buf.old ++ (times t (last_row w (take at buf.old)) ++ drop (at + t * w) buf.old)) }
{
    let mut done: usize = 0;
    // Kept: a while, since each turn sends as many rows as stand there already.
    while done < t {
        let more = (done + 1).min(t - done);
        copy_row(buf, at + done * w, more * w);
        done += more;
    }
    at + t * w
}
