// Codes at the C interface: a direction and a train type come as numbers.
ghost use Rattle.std.specs.Prelude.{◌≡◌};
ghost use Rattle.capi.specs.Codes as spec;

use link::train_params::{TrainParams, TrainType};
use lookup::lin_search_hint::Dir;
use si::{Length, Mass, Ratio, Velocity};

// A train with its type as a number.
#[repr(C)]
#[derive(Clone, Copy)]
pub struct Train {
    pub length: Length,
    pub speed_max: Velocity,
    pub towed_mass_static: Mass,
    pub mass_per_brake: Mass,
    pub curve_coeff_0: Ratio,
    pub curve_coeff_1: Ratio,
    pub curve_coeff_2: Ratio,
    pub axle_count: u32,
    pub train_type: u32,
}

// The direction of a code: 0 Unk, 1 Fwd, 2 Bwd; no other code has one.
pub fn dir_of(code: u32) -> Option<Dir>
    ensures { result ≡ spec.dir_of code }
{
    match code {
        0 => Some(Dir::Unk),
        1 => Some(Dir::Fwd),
        2 => Some(Dir::Bwd),
        _ => None,
    }
}

// The type of a code from 0 to 6; None for any other.
fn type_of(code: u32) -> TrainType
    ensures { result ≡ spec.type_of code }
{
    match code {
        1 => TrainType::Freight,
        2 => TrainType::Passenger,
        3 => TrainType::Intermodal,
        4 => TrainType::HighSpeedPassenger,
        5 => TrainType::TiltTrain,
        6 => TrainType::Commuter,
        _ => TrainType::None,
    }
}

// The length to judge: NaN where the type's code is unknown, so that question 1 refuses the train.
fn judged_length(t: Train) -> f64
    ensures { result ≡ spec.judged_length t }
{
    let known = t.train_type <= 6;
    if known { t.length.0 } else { f64::NAN }
}

// The train's record with its type; one of unknown type has no finite length.
pub fn train_of(t: Train) -> TrainParams
    ensures { result ≡ spec.train_of t }
{
    TrainParams {
        length: Length(judged_length(t)),
        speed_max: t.speed_max,
        towed_mass_static: t.towed_mass_static,
        mass_per_brake: t.mass_per_brake,
        axle_count: t.axle_count,
        train_type: type_of(t.train_type),
        curve_coeff_0: t.curve_coeff_0,
        curve_coeff_1: t.curve_coeff_1,
        curve_coeff_2: t.curve_coeff_2,
    }
}
