// Numbers of binary64: whether one is finite, its sign bit and its size. Each answers for every f64, a NaN included.
#![tactic(auto)]

ghost use Rattle.std.specs.Prelude.{◌≡◌};
ghost use Rattle.std.specs.Float.Ieee.Scale.{finite};
ghost use Rattle.ieee.specs.Number as number;

// Whether x is neither an infinity nor a NaN.
pub fn is_finite(x: f64) -> bool
    ensures { result ≡ finite x }
{
    x - x == 0.0
}

// Whether the sign bit of x is set; false for a NaN.
pub fn is_negative(x: f64) -> bool
    ensures { result ≡ number.sign x }
{
    if x != x {
        return false;
    }
    f64::to_bits(x) >= 0x8000_0000_0000_0000
}

// x without its sign.
pub fn size(x: f64) -> f64
    ensures { result ≡ number.size x }
{
    if is_negative(x) { -x } else { x }
}
