// A speed limit, and the smaller of two speeds.
ghost use Rattle.std.specs.Prelude.{◌≡◌};
ghost use Rattle.ieee.specs.Speed.{smaller, min_speed};

use si::{Length, Velocity};

// From offset_start up to offset_end.
#[derive(Clone, Copy)]
pub struct SpeedLimit {
    pub offset_start: Length,
    pub offset_end: Length,
    pub speed: Velocity,
}

// b where it is below a, otherwise a; f64::min would answer b for an a that is no number.
pub fn lesser(a: f64, b: f64) -> f64
    ensures { result ≡ smaller a b }
{
    if b < a { b } else { a }
}

// Both sign bits clear, the smaller; otherwise minus the smaller size.
pub fn min_speed(speed_old: Velocity, speed_new: Velocity) -> Velocity
    ensures { result.0 ≡ min_speed speed_old.0 speed_new.0 }
{
    let a = speed_old.0;
    let b = speed_new.0;
    if ieee::is_negative(a) | ieee::is_negative(b) {
        return Velocity(-lesser(ieee::size(a), ieee::size(b)));
    }
    Velocity(lesser(a, b))
}
