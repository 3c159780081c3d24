// A grade or curve list that is known to be sound, to read: the first `count` records of a column, one or more.
ghost use Rattle.std.specs.Prelude.{◌≡◌, ◌*◌, ◌≤◌, ◌<◌, List, length};
ghost use Rattle.lookup.specs.declared.path_res_coeff.PathResCoeff.{PathResCoeff};
ghost use Rattle.lookup.specs.Coeff.{coeffs, coeff_at, offset_at};
ghost use Rattle.lookup.specs.CalcIdx.{list_sound, judged};

use crate::path_res_coeff::{PathResCoeff, coeffs_finite};
use answer::{Question, Refusal};
use column::Three;
use si::Length;
use std::marker::Model;

// The records that a column holds at its front.
#[derive(Drop)]
pub struct CoeffList<'a> {
    col: &'a [f64],
    count: usize,
}

impl<'a> Model for CoeffList<'a> {
    ghost Value = { List PathResCoeff };

    ghost view = { λ l. coeffs l.count l.col.now };

    ghost invariant = { λ l. (0 < l.count) × (3 * l.count ≤ length l.col.now) };
}

// Question 2 of a list searched alone, any column and count: it is not empty, and the column holds its records.
pub fn list_sound(col: &[f64], n: usize) -> bool
    ensures { result ≡ list_sound n col.now }
{
    0 < n && n <= col.len() / 3
}

impl<'a> CoeffList<'a> {
    pub fn new(col: &'a [f64], count: usize) -> CoeffList<'a>
        requires some { 0 < count }
        requires in_column { 3 * count ≤ length col.now }
        ensures { result ≡ coeffs count col.now }
    {
        CoeffList { col, count }
    }

    // Questions 1 and 2 of any count of any column, and then the list; `also` is question 1 of the call's other numbers.
    pub fn judged(col: &'a [f64], n: usize, also: bool) -> Result<CoeffList<'a>, Refusal>
        ensures { result ≡ judged also n col.now }
    {
        Question::Finite.ask(also && coeffs_finite(col, n, true))?;
        Question::Sound.ask(list_sound(col, n))?;
        Ok(CoeffList::new(col, n))
    }

    // How many records.
    pub fn len(&self) -> usize
        ensures are { result ≡ length self.now }
        ensures some { 0 < result }
    {
        self.count
    }

    // Record i.
    pub fn at(&self, i: usize) -> PathResCoeff
        requires { i < length self.now }
        ensures { result ≡ coeff_at self.now i }
    {
        let col = self.col;
        let k = 3 * i;
        PathResCoeff::from(Three(col[k], col[k + 1], col[k + 2]))
    }

    // The offset of record i.
    pub fn offset_at(&self, i: usize) -> Length
        requires { i < length self.now }
        ensures { result.0 ≡ offset_at self.now i }
    {
        let col = self.col;
        Length(col[3 * i])
    }
}
