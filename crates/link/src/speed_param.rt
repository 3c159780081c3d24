// A condition of a speed set: a kind with its limit value, and a comparison.
ghost use Rattle.std.specs.Prelude.{◌≡◌, ◌^◌, ◌<◌};
ghost use Rattle.link.specs.Condition.{param_of, param_told, by_code, compares_float, compares_count, axle_limit, param_holds, holds, condition_formed};
ghost use Rattle.link.specs.Table.{condition_at};

use crate::network::Network;
use crate::train_params::TrainParams;

// A condition carries its limit value with its kind.
#[derive(Clone, Copy)]
pub enum SpeedParam {
    MassTotal(f64),
    MassPerBrake(f64),
    AxleCount(f64),
}

// The kind's code and the value as a condition; the codes are the Rust's, 3 to 5.
#[tactic(auto, unfolding(crate::specs::Condition::param_of))]
fn speed_param(kind: u32, v: f64) -> Option<SpeedParam>
    ensures { param_told result ≡ param_told (param_of kind v) }
{
    match kind {
        3 => Some(SpeedParam::MassTotal(v)),
        4 => Some(SpeedParam::MassPerBrake(v)),
        5 => Some(SpeedParam::AxleCount(v)),
        _ => None,
    }
}

// Comparison codes 1 to 5: =, >, <, >=, <=. Which of the five a code asks for; none for another code.
#[tactic(auto, unfolding(crate::specs::Condition::by_code))]
fn by_code(
    code: u32,
    equal: bool,
    above: bool,
    below: bool,
    not_below: bool,
    not_above: bool,
) -> bool
    ensures { result ≡ by_code code equal above below not_below not_above }
{
    match code {
        1 => equal,
        2 => above,
        3 => below,
        4 => not_below,
        5 => not_above,
        _ => false,
    }
}

// The train's figure on the left. One function over both types would state the orders by `partial_cmp`, a step further from R26's comparisons.
fn compares_float(code: u32, figure: f64, limit: f64) -> bool
    ensures { result ≡ compares_float code figure limit }
{
    by_code(
        code,
        figure == limit,
        figure > limit,
        figure < limit,
        figure >= limit,
        figure <= limit,
    )
}

fn compares_count(code: u32, figure: u32, limit: u32) -> bool
    ensures { result ≡ compares_count code figure limit }
{
    by_code(
        code,
        figure == limit,
        figure > limit,
        figure < limit,
        figure >= limit,
        figure <= limit,
    )
}

// The value as a u32, as Rust's `as`: 4.9 gives 4, -3 and a NaN give 0, too large gives 4294967295.
fn axle_limit(v: f64) -> u32
    ensures { result ≡ axle_limit v }
{
    if v >= 1.0 {
        if v >= 4294967295.0 {
            return 4294967295;
        }
        return std::num::truncating_f64_to_u64(v) as u32;
    }
    0
}

// Whether the train's figure compares so with the limit value.
#[tactic(auto, unfolding(crate::specs::Condition::param_holds))]
fn param_holds(train: TrainParams, code: u32, p: Option<SpeedParam>) -> bool
    ensures { result ≡ param_holds train code p }
{
    let Some(q) = p else {
        return false;
    };
    match q {
        SpeedParam::MassTotal(v) => compares_float(code, train.towed_mass_static.0, v),
        SpeedParam::MassPerBrake(v) => compares_float(code, train.mass_per_brake.0, v),
        SpeedParam::AxleCount(v) => compares_count(code, train.axle_count, axle_limit(v)),
    }
}

impl Network<'_> {
    // Whether condition i of the pool holds for the train.
    pub fn condition_holds(&self, i: usize, train: TrainParams) -> bool
        requires { i < 2 ^ 40 }
        ensures { result ≡ holds train (condition_at self.now.codes.now self.now.values.now i) }
    {
        let kind = column::get(self.codes, 2 * i);
        let code = column::get(self.codes, 2 * i + 1);
        let v = column::get(self.values, i);
        param_holds(train, code, speed_param(kind, v))
    }

    // Question 6 of condition i: its codes are known, and its value is finite.
    #[tactic(auto, unfolding(crate::specs::Condition::condition_formed))]
    pub fn condition_formed(&self, i: usize) -> bool
        requires { i < 2 ^ 40 }
        ensures { result ≡ condition_formed (condition_at self.now.codes.now self.now.values.now i) }
    {
        let kind = column::get(self.codes, 2 * i);
        let code = column::get(self.codes, 2 * i + 1);
        let v = column::get(self.values, i);
        let Some(_) = speed_param(kind, v) else {
            return false;
        };
        if code < 1 {
            return false;
        }
        if 5 < code {
            return false;
        }
        ieee::is_finite(v)
    }
}
