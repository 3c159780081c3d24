// The calls on a list searched alone. Each is the library's call under a C name, with the same equation; an unknown direction is refused with 1.
ghost use Rattle.std.specs.Prelude.{◌≡◌, false};
ghost use Rattle.lookup.specs.CalcIdx.{calc_idx};
ghost use Rattle.path.specs.Answers.{ask};
ghost use Rattle.resistance.specs.Listed.{searched_of, not_searched, res_coeff_of, res_net_of};
ghost use Rattle.resistance.specs.Point as points;
ghost use Rattle.resistance.specs.Strap as straps;
ghost use Rattle.resistance.specs.Walk.{walk_of};
ghost use Rattle.capi.specs.Codes.{dir_of, directed};

use crate::codes::dir_of;
use answer::Question;
use resistance::listed::{CoeffAnswer, NetAnswer, Searched};
use resistance::point::{Point, PointAnswer, PointRes};
use resistance::strap::{Strap, StrapAnswer, StrapRes};
use resistance::walk::walk;
use si::Length;
use train::train_state::TrainState;

// `calc_idx`: the record of a list where an offset lies.
#[unsafe(no_mangle)]
pub extern "C" fn mochaspit_calc_idx(
    col: &[f64],
    n: usize,
    offset: Length,
    hint: usize,
    dir: u32,
) -> Searched
    ensures { result ≡ directed (dir_of dir) (λ d. searched_of (calc_idx d offset.0 hint n col.now)) (not_searched 1) }
{
    match dir_of(dir) {
        Some(d) => Searched::from(lookup::calc_idx::calc_idx(col, n, offset, hint, d)),
        None => Searched::from(Question::Finite.refused()),
    }
}

// `Point::new`.
#[unsafe(no_mangle)]
pub extern "C" fn mochaspit_point_new(col: &[f64], n: usize, state: TrainState) -> PointAnswer
    ensures { result ≡ points.new_of state n col.now }
{
    let before = Point { idx: 0 };
    PointAnswer::told(before, Point::new(col, n, state))
}

// `Point::calc_res`.
#[unsafe(no_mangle)]
pub extern "C" fn mochaspit_point_calc_res(
    point: Point,
    col: &[f64],
    n: usize,
    state: TrainState,
    dir: u32,
) -> PointRes
    ensures { result ≡ directed (dir_of dir) (λ d. points.calc_res_of d point state n col.now) (points.refused_res (ask 1 false) point) }
{
    match dir_of(dir) {
        Some(d) => PointRes::told(point, point.calc_res(col, n, state, d)),
        None => PointRes::told(point, Question::Finite.refused()),
    }
}

// `Point::res_coeff_front`.
#[unsafe(no_mangle)]
pub extern "C" fn mochaspit_point_res_coeff_front(
    point: Point,
    col: &[f64],
    n: usize,
) -> CoeffAnswer
    ensures { result ≡ res_coeff_of point.idx n col.now }
{
    CoeffAnswer::from(point.res_coeff_front(col, n))
}

// `Point::res_net_front`.
#[unsafe(no_mangle)]
pub extern "C" fn mochaspit_point_res_net_front(
    point: Point,
    col: &[f64],
    n: usize,
    state: TrainState,
) -> NetAnswer
    ensures { result ≡ res_net_of point.idx state.offset.0 state n col.now }
{
    NetAnswer::from(point.res_net_front(col, n, state))
}

// `Point::path_tpc_idx_front`.
#[unsafe(no_mangle)]
pub extern "C" fn mochaspit_point_path_tpc_idx_front(point: Point) -> usize
    ensures { result ≡ point.idx }
{
    point.path_tpc_idx_front()
}

// `Point::fix_cache`.
#[unsafe(no_mangle)]
pub extern "C" fn mochaspit_point_fix_cache(point: Point, sub: usize) -> PointAnswer
    ensures { result ≡ points.fix_cache point sub }
{
    PointAnswer::told(point, point.fix_cache(sub))
}

// `Strap::new`.
#[unsafe(no_mangle)]
pub extern "C" fn mochaspit_strap_new(col: &[f64], n: usize, state: TrainState) -> StrapAnswer
    ensures { result ≡ straps.new_of state n col.now }
{
    let before = Strap {
        idx_front: 0,
        idx_back: 0,
    };
    StrapAnswer::told(before, Strap::new(col, n, state))
}

// `Strap::calc_res`.
#[unsafe(no_mangle)]
pub extern "C" fn mochaspit_strap_calc_res(
    strap: Strap,
    col: &[f64],
    n: usize,
    state: TrainState,
    dir: u32,
) -> StrapRes
    ensures { result ≡ directed (dir_of dir) (λ d. straps.calc_res_of d strap state n col.now) (straps.refused_res (ask 1 false) strap) }
{
    match dir_of(dir) {
        Some(d) => StrapRes::told(strap, strap.calc_res(col, n, state, d)),
        None => StrapRes::told(strap, Question::Finite.refused()),
    }
}

// A walk of `Strap::calc_res` over count positions, the first at state and each a step further, all or nothing.
#[unsafe(no_mangle)]
pub extern "C" fn mochaspit_strap_walk(
    strap: Strap,
    col: &[f64],
    n: usize,
    state: TrainState,
    dir: u32,
    step: Length,
    count: usize,
) -> StrapRes
    ensures { result ≡ directed (dir_of dir) (λ d. walk_of d step.0 count strap state n col.now) (straps.refused_res (ask 1 false) strap) }
{
    match dir_of(dir) {
        Some(d) => StrapRes::told(strap, walk(strap, col, n, state, d, step, count)),
        None => StrapRes::told(strap, Question::Finite.refused()),
    }
}

// `Strap::res_coeff_front`.
#[unsafe(no_mangle)]
pub extern "C" fn mochaspit_strap_res_coeff_front(
    strap: Strap,
    col: &[f64],
    n: usize,
) -> CoeffAnswer
    ensures { result ≡ res_coeff_of strap.idx_front n col.now }
{
    CoeffAnswer::from(strap.res_coeff_front(col, n))
}

// `Strap::res_net_front`.
#[unsafe(no_mangle)]
pub extern "C" fn mochaspit_strap_res_net_front(
    strap: Strap,
    col: &[f64],
    n: usize,
    state: TrainState,
) -> NetAnswer
    ensures { result ≡ res_net_of strap.idx_front state.offset.0 state n col.now }
{
    NetAnswer::from(strap.res_net_front(col, n, state))
}

// `Strap::res_coeff_back`.
#[unsafe(no_mangle)]
pub extern "C" fn mochaspit_strap_res_coeff_back(strap: Strap, col: &[f64], n: usize) -> CoeffAnswer
    ensures { result ≡ res_coeff_of strap.idx_back n col.now }
{
    CoeffAnswer::from(strap.res_coeff_back(col, n))
}

// `Strap::res_net_back`.
#[unsafe(no_mangle)]
pub extern "C" fn mochaspit_strap_res_net_back(
    strap: Strap,
    col: &[f64],
    n: usize,
    state: TrainState,
) -> NetAnswer
    ensures { result ≡ res_net_of strap.idx_back state.offset_back.0 state n col.now }
{
    NetAnswer::from(strap.res_net_back(col, n, state))
}

// `Strap::path_tpc_idx_front`.
#[unsafe(no_mangle)]
pub extern "C" fn mochaspit_strap_path_tpc_idx_front(strap: Strap) -> usize
    ensures { result ≡ strap.idx_front }
{
    strap.path_tpc_idx_front()
}

// `Strap::fix_cache`.
#[unsafe(no_mangle)]
pub extern "C" fn mochaspit_strap_fix_cache(strap: Strap, sub: usize) -> StrapAnswer
    ensures { result ≡ straps.fix_cache strap sub }
{
    StrapAnswer::told(strap, strap.fix_cache(sub))
}
