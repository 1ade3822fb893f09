// The items of a raster: a run or a repeat, with the place of the nybble after it.
#![tactic(auto)]

ghost use Rattle.std.specs.Prelude.{◌≡◌};
ghost use Rattle.format.specs.Reading.{item_of};
ghost use Rattle.packed.specs.Answer.{from, read_at};
ghost use Rattle.items.specs.Items.{refusal_of, wanted, to_item};

use packed::{Factor, Number, Unread};
use refusals::Refusal;

// A run or a repeat of a number, 65,537 for any above 65,536, and the place of the next nybble.
#[derive(Clone, Copy)]
pub enum Item {
    Run(usize, usize),
    Repeat(usize, usize),
}

// Where a number is wanted and none is read. (Kept: no From, since neither type is of this crate.)
fn refusal_of(unread: Unread) -> Refusal
    ensures { result ≡ refusal_of unread }
{
    match unread {
        Unread::Ends => Refusal::RasterEnds,
        Unread::Mark => Refusal::SecondRepeat,
    }
}

// The packed number whose first nybble is at `at`, where one is wanted.
fn number_at(s: &[u8], at: usize, f: Factor) -> Result<Number, Refusal>
    ensures { result ≡ wanted (read_at s.now at f.n) }
{
    packed::read_number(s, at, f).map_err(refusal_of)
}

// The item whose first nybble is at `at`, in a row that has had the repeat given. A call, so that what calls `item_at` stays small.
#[inline(never)]
pub fn other_at(s: &[u8], at: usize, f: Factor, repeat: usize) -> Result<Item, Refusal>
    ensures { result ≡ to_item s.now (item_of f.n repeat (from s.now at)) }
{
    if 2 * s.len() <= at {
        return Err(Refusal::RasterEnds);
    }
    let x = nybbles::nybble(s, at);
    if x < 14 {
        let run = number_at(s, at, f)?;
        return Ok(Item::Run(run.n, run.next));
    }
    if 0 < repeat {
        return Err(Refusal::SecondRepeat);
    }
    if x == 15 {
        return Ok(Item::Repeat(1, at + 1));
    }
    // Kept, though `number_at` would read it too: without it judging was slower (docs/SPEED.md).
    if let Some(short) = packed::short_at(s, at + 1, f) {
        return Ok(Item::Repeat(short.n, short.next));
    }
    let number = number_at(s, at + 1, f)?;
    Ok(Item::Repeat(number.n, number.next))
}

// The same, looking first for a run of one or two nybbles, which most are.
#[inline(always)]
pub fn item_at(s: &[u8], at: usize, f: Factor, repeat: usize) -> Result<Item, Refusal>
    ensures { result ≡ to_item s.now (item_of f.n repeat (from s.now at)) }
{
    if let Some(short) = packed::short_at(s, at, f) {
        return Ok(Item::Run(short.n, short.next));
    }
    other_at(s, at, f, repeat)
}
