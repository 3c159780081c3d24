// Entries past the counts of a path.
ghost use Rattle.std.specs.Prelude.{◌≡◌, true};
ghost use Rattle.path.specs.Records.{held, Same, path_of, columns_of};
ghost use Rattle.path.specs.Sound.{within_bounds};

use crate::columns::PathColumnsMut;
use crate::path_tpc::PathTpc;

impl PathColumnsMut<'_> {
    // They become zero.
    #[tactic(auto, using(crate::proofs::Clauses::bounds))]
    pub fn zero_rest(&mut self, p: PathTpc)
        requires { within_bounds p (held self.old) ≡ true }
        ensures same { Same self.old self.new }
        ensures columns { held self.new ≡ columns_of (held self.old) (path_of p (held self.old)) }
    {
        column::zero_from(&mut *self.offsets, p.link_count);
        column::zero_from(&mut *self.numbers, 4 * p.link_count);
        column::zero_from(&mut *self.grades, 3 * p.grade_count);
        column::zero_from(&mut *self.curves, 3 * p.curve_count);
        column::zero_from(&mut *self.speeds, 2 * p.speed_count);
        column::zero_from(&mut *self.powers, 3 * p.power_count);
        column::zero_from(&mut *self.districts, p.power_count);
    }
}
