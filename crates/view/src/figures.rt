// Figures of a picture: whole numbers times a power of ten, with no zeros that say nothing.
ghost use Rattle.std.specs.Prelude.{◌-◌, ◌^◌, ◌<◌, ◌≤◌};

use show::Rounded;
use std::fmt::{self, Display};

// The whole part of a number's size; 0 from a thousand million million on, and for a NaN.
pub fn whole(x: f64) -> u64
    ensures { result ≤ 1000000000000000 }
{
    let n = std::num::saturating_f64_to_u64(ieee::size(x));
    if n < 1000000000000000 { n } else { 0 }
}

// How many digits n has.
pub fn digit_count(n: u64) -> u32
    ensures one { 1 ≤ result }
    ensures within { result ≤ 20 }
    ensures has { n < 10 ^ result }
    ensures least { 1 < result → 10 ^ (result - 1) ≤ n }
{
    match n.checked_ilog10() {
        Some(power) => power + 1,
        None => 1,
    }
}

// A whole number times a power of ten.
#[derive(Clone, Copy)]
pub struct Scaled {
    pub digits: u64,
    pub power: i32,
}

impl Scaled {
    // The same with the zeros at the end of its digits in the power.
    fn stripped(self) -> Scaled {
        let mut s = self;
        for _ in 0..20 {
            if s.digits % 10 != 0 {
                return s;
            }
            s = Scaled {
                digits: s.digits / 10,
                power: s.power.saturating_add(1),
            };
        }
        Scaled {
            digits: 0,
            power: 0,
        }
    }
}

// The point stands so many digits from the end of a whole number.
#[derive(Clone, Copy)]
struct Pointed {
    digits: u64,
    behind: u32,
}

impl Display for Pointed {
    fn fmt<W: fmt::Write>(&self, f: &mut fmt::Formatter<W>) -> fmt::Result {
        let behind = self.behind as usize;
        let one = 10u64.saturating_pow(self.behind).max(1);
        match behind {
            0 => write!(f, "{}", self.digits),
            _ => write!(f, "{}.{:0behind$}", self.digits / one, self.digits % one),
        }
    }
}

// In full up to seven digits, or up to six behind the point; otherwise with one digit before the point, and the power of ten that it has.
impl Display for Scaled {
    fn fmt<W: fmt::Write>(&self, f: &mut fmt::Formatter<W>) -> fmt::Result {
        let Scaled { digits, power } = self.stripped();
        let behind = digit_count(digits) - 1;
        let first = power.saturating_add(behind as i32);
        match power {
            -6..=-1 => write!(
                f,
                "{}",
                Pointed {
                    digits,
                    behind: power.unsigned_abs()
                }
            ),
            0.. if first < 7 => write!(
                f,
                "{}",
                digits.saturating_mul(10u64.saturating_pow(power.unsigned_abs()))
            ),
            _ => write!(f, "{}e{first}", Pointed { digits, behind }),
        }
    }
}

// A number to as many places behind the point as its format asks for, two where it asks for none; a large one to three.
#[derive(Clone, Copy)]
pub struct Figure(pub f64);

impl Display for Figure {
    fn fmt<W: fmt::Write>(&self, f: &mut fmt::Formatter<W>) -> fmt::Result {
        let size = ieee::size(self.0);
        let sign = if self.0 < 0.0 { "-" } else { "" };
        if size < 100000000000.0 {
            let places = f.precision().unwrap_or(2).min(3) as u32;
            let parts = std::num::nearest_u64_to_f64(10u64.saturating_pow(places));
            let digits = whole(size * parts + 0.5);
            write!(
                f,
                "{sign}{}",
                Scaled {
                    digits,
                    power: -(places as i32)
                }
            )
        } else {
            write!(f, "{sign}{}", Rounded(size))
        }
    }
}
