// The search in a list that is known to be sound.
ghost use Rattle.std.specs.Prelude.{◌≡◌, ◌<◌, length};
ghost use Rattle.lookup.specs.Search.{forwards, backwards};
ghost use Rattle.lookup.specs.CalcIdx.{indexed, find_in};

use crate::coeff_list::CoeffList;
use crate::lin_search_hint::Dir;
use answer::{Question, Refusal};
use si::Length;

// Forwards and backwards have two functions each: they differ in the end that question 10 asks about, the bound on the hint, the order and
// the comparison, and one function over all four would have to be told each of them.
impl CoeffList<'_> {
    // The first record from the hint on whose successor is not before x.
    fn forward(&self, x: Length, hint: usize) -> usize
        requires { hint < length self.now }
        ensures { result ≡ forwards x.0 hint self.now }
    {
        let last = self.len() - 1;
        for i in hint..last {
            if !(self.offset_at(i + 1).0 < x.0) {
                return i;
            }
        }
        last
    }

    // The last record up to the hint that is not after x.
    fn backward(&self, x: Length, hint: usize) -> usize
        requires { hint < length self.now }
        ensures { result ≡ backwards x.0 hint self.now }
    {
        for j in (1..=hint).rev() {
            if !(x.0 < self.offset_at(j).0) {
                return j;
            }
        }
        0
    }

    // Questions 10 and 11 of a search forwards, and its index.
    fn find_forward(&self, x: Length, hint: usize) -> Result<usize, Refusal>
        ensures { indexed result ≡ find_in Dir.Fwd x.0 hint self.now }
    {
        let last = self.len() - 1;
        Question::InRange.ask(x.0 <= self.offset_at(last).0)?;
        Question::Hint.ask(hint < last)?;
        Ok(self.forward(x, hint))
    }

    // Questions 10 and 11 of a search backwards, and its index.
    fn find_backward(&self, x: Length, hint: usize) -> Result<usize, Refusal>
        ensures { indexed result ≡ find_in Dir.Bwd x.0 hint self.now }
    {
        let n = self.len();
        Question::InRange.ask(self.offset_at(0).0 <= x.0)?;
        Question::Hint.ask(hint < n)?;
        Ok(self.backward(x, hint))
    }

    // Questions 10 and 11, and the index.
    pub fn find(&self, x: Length, hint: usize, dir: Dir) -> Result<usize, Refusal>
        ensures { indexed result ≡ find_in dir x.0 hint self.now }
    {
        match dir {
            Dir::Bwd => self.find_backward(x, hint),
            Dir::Fwd | Dir::Unk => self.find_forward(x, hint),
        }
    }
}
