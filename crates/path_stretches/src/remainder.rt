// The remainder by a whole turn: x - n * REV, where n is x / REV cut to a whole number. Each step is exact, and nothing of the C library is called.
ghost use Rattle.std.specs.Prelude.{◌≡◌, true};
ghost use Rattle.std.specs.Float.{binary64};
ghost use Rattle.std.specs.Float.Ieee as Ieee;
ghost use Rattle.si.specs.Constants.{rev};
ghost use Rattle.path_stretches.specs.Remainder.{has_remainder};

// What is left of x where y is taken off as often as it fits: where it fits twice or more, first by twice y, and then once more at most.
fn rest(x: f64, y: f64) -> f64
    requires { has_remainder x y ≡ true }
    ensures { result ≡ Ieee.rem binary64 x y }
{
    if x < y {
        return x;
    }
    let left = x - y;
    if left < y {
        return left;
    }
    let over = rest(x, y + y);
    if over < y {
        return over;
    }
    over - y
}

// x % REV, with the sign of x.
pub fn remainder(x: f64) -> f64
    ensures { result ≡ Ieee.rem binary64 x rev }
{
    if !ieee::is_finite(x) {
        return x - x;
    }
    let whole = si::rev().0;
    if ieee::is_negative(x) {
        return -rest(-x, whole);
    }
    rest(x, whole)
}
