// A lent column of grades or curves, to lay stretches on: `count` records, one or more, and zeros past them.
ghost use Rattle.std.specs.Prelude.{◌≡◌, ◌+◌};
ghost use Rattle.lookup.specs.Coeff.{coeffs};
ghost use Rattle.path_stretches.specs.Column.{Holds};

use crate::stretch::Stretch;
use lookup::coeff_list::CoeffList;
use lookup::path_res_coeff::PathResCoeff;

// The column that the caller lends, and how many records it holds.
#[derive(Drop)]
pub struct CoeffColumn<'a> {
    pub col: &'a mut [f64],
    pub count: usize,
    pub ghost holds: { Holds col.now (coeffs count col.now) },
}

impl CoeffColumn<'_> {
    ghost use Rattle.path.specs.Records.{last_coeff};
    ghost use Rattle.path_stretches.specs.Stretches.{lay_stretch};
    ghost use Rattle.path_stretches.specs.Becomes.{coeffs_of, HasRoom, Becomes};

    // The last record.
    pub fn last(&self) -> PathResCoeff
        ensures { result ≡ last_coeff (coeffs_of self.now) }
    {
        CoeffList::new(&*self.col, self.count).at(self.count - 1)
    }

    // Lays a stretch: the coefficient of the last record, and one record more.
    pub fn lay(&mut self, s: Stretch)
        requires { HasRoom 1 self.old }
        ensures becomes { Becomes self.old self.new (lay_stretch (coeffs_of self.old) s) }
        ensures count { self.new.count ≡ self.old.count + 1 }
    {
        let col = &mut *self.col;
        let k = 3 * self.count;
        if let Some(c) = s.coefficient {
            col[k - 2] = c.0;
        }
        col[k] = s.offset.0;
        col[k + 1] = 0.0;
        col[k + 2] = s.net.0;
        self.count += 1;
    }
}
