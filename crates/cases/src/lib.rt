// The cases that a program reads one after the other: bytes behind a head whose last four bytes are their length.
#![tactic(auto)]

ghost use Rattle.std.specs.Prelude.{ℕ, ◌-◌, ◌<◌, ◌≤◌, ◌≡◌, length, IfSome};
ghost use Rattle.std.specs.Iterator.{at_most};
ghost use Rattle.cases.specs.Blocks.{block_at, NextCase};

// A buffer to read the cases into. What stands in it is not said: a program's proof needs its length only.
// Kept: fixed room, since nothing here allocates.
pub fn empty<const N: usize>() -> [u8; N]
    ensures { N ≡ length result }
{
    [0; N]
}

// Where the bytes behind the head of so many bytes at `at` begin and end, if they are not cut off.
#[tactic(auto, using(crate::proofs::BlockLaws::head_cut, crate::proofs::BlockLaws::bytes_cut, crate::proofs::BlockLaws::bytes_whole))]
pub fn block_at(s: &[u8], at: usize, head: usize) -> Option<(usize, usize)>
    requires { (at ≤ length s.now) × (4 ≤ head) }
    ensures is { result ≡ block_at s.now at head }
    ensures inside { IfSome result (λ b. (at < b.0) × (b.0 ≤ b.1) × (b.1 ≤ length s.now)) }
{
    if s.len() - at < head {
        return None;
    }
    let begin = at + head;
    let n = fields::number_at(s, begin - 4, 4) as usize;
    if s.len() - begin < n {
        return None;
    }
    Some((begin, begin + n))
}

// A case: its head, and the bytes behind it.
#[derive(Clone, Copy)]
pub struct Case<'a> {
    pub head: &'a [u8],
    pub bytes: &'a [u8],
}

// A case whose bytes end too soon. No case comes behind it.
#[derive(Clone, Copy)]
pub struct CutOff;

// The cases from a place on. A head has the length that its first byte says.
#[derive(Drop)]
pub struct Cases<'a, F> {
    pub s: &'a [u8],
    pub at: usize,
    pub head: F,
}

impl<'a, F> Cases<'a, F> {
    // All cases of a slice.
    pub fn new(s: &'a [u8], head: F) -> Cases<'a, F>
        ensures { (result.s.now ≡ s.now) × (result.at ≡ 0) × (result.head ≡ head) }
    {
        Cases { s, at: 0, head }
    }
}

impl<'a, F: Fn(u8) -> usize + Drop> Iterator for Cases<'a, F> {
    type Item = Result<Case<'a>, CutOff>;

    ghost can_next = { λ c. F.IsAlwaysCallable c.head × ((b h : ℕ) → F.post c.head b h → 4 ≤ h) };

    ghost next_gives = { λ c r d. NextCase (F.post c.head) c.s.now c.at r d.at × (d.s ≡ c.s) × (d.head ≡ c.head) };

    ghost remaining = { λ c. at_most (length c.s.now - c.at) };

    fn next(&mut self) -> Option<Result<Case<'a>, CutOff>> {
        let first = *self.s.get(self.at)?;
        let head = (self.head)(first);
        let Some((begin, end)) = block_at(self.s, self.at, head) else {
            self.at = self.s.len();
            return Some(Err(CutOff));
        };
        let case = Case {
            head: &self.s[self.at..begin],
            bytes: &self.s[begin..end],
        };
        self.at = end;
        Some(Ok(case))
    }
}
