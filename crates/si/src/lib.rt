// Quantities as wrapped numbers, one type for each unit of the Rust's si, and the constants of uc.rs.
#![tactic(auto)]

ghost use Rattle.std.specs.Prelude.{◌≡◌};
ghost use Rattle.si.specs.Constants as constants;

// metres
#[repr(C)]
#[derive(Clone, Copy)]
pub struct Length(pub f64);

// metres a second
#[repr(C)]
#[derive(Clone, Copy)]
pub struct Velocity(pub f64);

// kilograms
#[repr(C)]
#[derive(Clone, Copy)]
pub struct Mass(pub f64);

// newtons
#[repr(C)]
#[derive(Clone, Copy)]
pub struct Force(pub f64);

// without a unit
#[repr(C)]
#[derive(Clone, Copy)]
pub struct Ratio(pub f64);

// radians
#[derive(Clone, Copy)]
pub struct Angle(pub f64);

// radians a metre
#[derive(Clone, Copy)]
pub struct Curvature(pub f64);

// square metres
#[derive(Clone, Copy)]
pub struct Area(pub f64);

// seconds
#[derive(Clone, Copy)]
pub struct Time(pub f64);

// watts
#[derive(Clone, Copy)]
pub struct Power(pub f64);

// REV: one turn.
pub fn rev() -> Angle
    ensures { result.0 ≡ constants.rev }
{
    Angle(6.283185307179586)
}

// REV / 2, as `extend` divides at run time.
pub fn half_rev() -> Angle
    ensures { result.0 ≡ constants.half_rev }
{
    Angle(rev().0 / 2.0)
}

// DEG: one degree.
pub fn deg() -> Angle
    ensures { result.0 ≡ constants.deg }
{
    Angle(0.017453292519943295)
}

// FT: one foot.
pub fn ft() -> Length
    ensures { result.0 ≡ constants.ft }
{
    Length(0.3048)
}

// DEG / (FT * 100), as `extend` computes it at run time.
pub fn one_degree_per_100ft() -> Curvature
    ensures { result.0 ≡ constants.one_degree_per100ft }
{
    Curvature(deg().0 / (ft().0 * 100.0))
}
