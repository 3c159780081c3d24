// The train, and whether a set of conditions applies to it.
ghost use Rattle.std.specs.Prelude.{◌≡◌, ◌+◌, ◌^◌, ◌<◌, ◌≤◌};
ghost use Rattle.link.specs.Lists.{up_from};
ghost use Rattle.link.specs.Train.{type_number};
ghost use Rattle.link.specs.Condition.{applies};
ghost use Rattle.link.specs.Table.{condition_at};

use crate::network::Network;
use si::{Length, Mass, Ratio, Velocity};

#[derive(Clone, Copy, Debug, PartialEq, Eq)]
pub enum TrainType {
    None,
    Freight,
    Passenger,
    Intermodal,
    HighSpeedPassenger,
    TiltTrain,
    Commuter,
}

#[derive(Clone, Copy)]
pub struct TrainParams {
    pub length: Length,
    pub speed_max: Velocity,
    pub towed_mass_static: Mass,
    pub mass_per_brake: Mass,
    pub axle_count: u32,
    pub train_type: TrainType,
    pub curve_coeff_0: Ratio,
    pub curve_coeff_1: Ratio,
    pub curve_coeff_2: Ratio,
}

// The place of a type among the seven, from 0.
pub fn type_number(t: TrainType) -> usize
    ensures { result ≡ type_number t }
{
    t as usize
}

impl Network<'_> {
    // A set applies if its first condition holds and the rest of the list applies; an empty list applies. The rules have it as a recursion.
    pub fn speed_set_applies(&self, first: usize, left: usize, train: TrainParams) -> bool
        requires left_bound { first + left < 2 ^ 40 }
        requires left_bound_2 { left ≤ 64 }
        ensures { result ≡ applies train (up_from (condition_at self.now.codes.now self.now.values.now) first left) }
    {
        if left == 0 {
            return true;
        }
        if self.condition_holds(first, train) {
            return self.speed_set_applies(first + 1, left - 1, train);
        }
        false
    }
}
