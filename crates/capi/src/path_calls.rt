// The calls that may change a path. Each is the library's call under a C name, with the same equation.
ghost use Rattle.std.specs.Prelude.{◌≡◌};
ghost use Rattle.link.specs.Table.{table_of};
ghost use Rattle.path.specs.Records.{columns};
ghost use Rattle.path.specs.Answers.{Outcome, left};
ghost use Rattle.path_ends.specs.New.{new_of};
ghost use Rattle.path_ends.specs.Finish.{finish_of};
ghost use Rattle.path_clear.specs.Clear.{Cleared, clear_of};
ghost use Rattle.path_clear.specs.Trims.{clear_each};
ghost use Rattle.path_reindex.specs.Reindex.{reindex_of};
ghost use Rattle.path_speeds.specs.Recalc.{recalc_of};
ghost use Rattle.path_extend.specs.Extend.{extend_of};
ghost use Rattle.capi.specs.Codes.{train_of};

use crate::codes::{Train, train_of};
use link::network::Network;
use path::columns::PathColumnsMut;
use path::path_tpc::{PathAnswer, PathTpc};
use path_clear::clear::{ClearAnswer, clear};
use path_clear::clear_each::clear_each;
use path_ends::finish::finish;
use path_ends::new::{new, no_path};
use path_extend::extend::extend;
use path_reindex::reindex::reindex;
use path_speeds::recalc_speeds::recalc_speeds;
use si::Length;

// `new`: a path without links.
#[unsafe(no_mangle)]
pub extern "C" fn mochaspit_new(
    train: Train,
    offsets: &mut [f64],
    numbers: &mut [u32],
    grades: &mut [f64],
    curves: &mut [f64],
    speeds: &mut [f64],
    powers: &mut [f64],
    districts: &mut [u32],
) -> PathAnswer
    ensures { ◌≡◌ {A = Outcome}
        (left result (columns offsets.new numbers.new grades.new curves.new speeds.new powers.new districts.new))
        (new_of (train_of train) (columns offsets.old numbers.old grades.old curves.old speeds.old powers.old districts.old)) }
{
    let mut cols = PathColumnsMut {
        offsets,
        numbers,
        grades,
        curves,
        speeds,
        powers,
        districts,
    };
    PathAnswer::told(no_path(), new(train_of(train), &mut cols))
}

// `extend`: the listed links join the path.
#[unsafe(no_mangle)]
pub extern "C" fn mochaspit_extend(
    path: PathTpc,
    train: Train,
    list: &[u32],
    offsets: &mut [f64],
    numbers: &mut [u32],
    grades: &mut [f64],
    curves: &mut [f64],
    speeds: &mut [f64],
    powers: &mut [f64],
    districts: &mut [u32],
    links: &[u32],
    lengths: &[f64],
    sets: &[u32],
    elevs: &[f64],
    headings: &[f64],
    limits: &[f64],
    codes: &[u32],
    values: &[f64],
    link_powers: &[f64],
    link_districts: &[u32],
) -> PathAnswer
    ensures { ◌≡◌ {A = Outcome}
        (left result (columns offsets.new numbers.new grades.new curves.new speeds.new powers.new districts.new))
        (extend_of (train_of train)
        (table_of links.now lengths.now sets.now elevs.now headings.now limits.now codes.now values.now link_powers.now link_districts.now) list.now path
        (columns offsets.old numbers.old grades.old curves.old speeds.old powers.old districts.old)) }
{
    let mut cols = PathColumnsMut {
        offsets,
        numbers,
        grades,
        curves,
        speeds,
        powers,
        districts,
    };
    let network = Network {
        links,
        lengths,
        sets,
        elevs,
        headings,
        limits,
        codes,
        values,
        powers: link_powers,
        districts: link_districts,
    };
    let r = extend(path, train_of(train), list, &mut cols, &network);
    PathAnswer::told(path, r)
}

// `clear`: the links behind an offset go.
#[unsafe(no_mangle)]
pub extern "C" fn mochaspit_clear(
    path: PathTpc,
    offset: Length,
    offsets: &mut [f64],
    numbers: &mut [u32],
    grades: &mut [f64],
    curves: &mut [f64],
    speeds: &mut [f64],
    powers: &mut [f64],
    districts: &mut [u32],
) -> ClearAnswer
    ensures { ◌≡◌ {A = Cleared}
        (record {
          outcome = left result.outcome
              (columns offsets.new numbers.new grades.new curves.new speeds.new powers.new districts.new);
          dropped = result.dropped;
        })
        (clear_of offset.0 path (columns offsets.old numbers.old grades.old curves.old speeds.old powers.old districts.old)) }
{
    let mut cols = PathColumnsMut {
        offsets,
        numbers,
        grades,
        curves,
        speeds,
        powers,
        districts,
    };
    ClearAnswer::told(path, clear(path, offset, &mut cols))
}

// `clear_each`: the links behind each offset of a list go, in turn, all or nothing.
#[unsafe(no_mangle)]
pub extern "C" fn mochaspit_clear_each(
    path: PathTpc,
    xs: &[f64],
    offsets: &mut [f64],
    numbers: &mut [u32],
    grades: &mut [f64],
    curves: &mut [f64],
    speeds: &mut [f64],
    powers: &mut [f64],
    districts: &mut [u32],
) -> ClearAnswer
    ensures { ◌≡◌ {A = Cleared}
        (record {
          outcome = left result.outcome
              (columns offsets.new numbers.new grades.new curves.new speeds.new powers.new districts.new);
          dropped = result.dropped;
        })
        (clear_each xs.now path (columns offsets.old numbers.old grades.old curves.old speeds.old powers.old districts.old)) }
{
    let mut cols = PathColumnsMut {
        offsets,
        numbers,
        grades,
        curves,
        speeds,
        powers,
        districts,
    };
    ClearAnswer::told(path, clear_each(path, xs, &mut cols))
}

// `finish`: the path is closed.
#[unsafe(no_mangle)]
pub extern "C" fn mochaspit_finish(
    path: PathTpc,
    offsets: &mut [f64],
    numbers: &mut [u32],
    grades: &mut [f64],
    curves: &mut [f64],
    speeds: &mut [f64],
    powers: &mut [f64],
    districts: &mut [u32],
) -> PathAnswer
    ensures { ◌≡◌ {A = Outcome}
        (left result (columns offsets.new numbers.new grades.new curves.new speeds.new powers.new districts.new))
        (finish_of path (columns offsets.old numbers.old grades.old curves.old speeds.old powers.old districts.old)) }
{
    let mut cols = PathColumnsMut {
        offsets,
        numbers,
        grades,
        curves,
        speeds,
        powers,
        districts,
    };
    PathAnswer::told(path, finish(path, &mut cols))
}

// `recalc_speeds`: the speed points anew.
#[unsafe(no_mangle)]
pub extern "C" fn mochaspit_recalc_speeds(
    path: PathTpc,
    train: Train,
    offsets: &mut [f64],
    numbers: &mut [u32],
    grades: &mut [f64],
    curves: &mut [f64],
    speeds: &mut [f64],
    powers: &mut [f64],
    districts: &mut [u32],
    links: &[u32],
    lengths: &[f64],
    sets: &[u32],
    elevs: &[f64],
    headings: &[f64],
    limits: &[f64],
    codes: &[u32],
    values: &[f64],
    link_powers: &[f64],
    link_districts: &[u32],
) -> PathAnswer
    ensures { ◌≡◌ {A = Outcome}
        (left result (columns offsets.new numbers.new grades.new curves.new speeds.new powers.new districts.new))
        (recalc_of (train_of train)
        (table_of links.now lengths.now sets.now elevs.now headings.now limits.now codes.now values.now link_powers.now link_districts.now) path
        (columns offsets.old numbers.old grades.old curves.old speeds.old powers.old districts.old)) }
{
    let mut cols = PathColumnsMut {
        offsets,
        numbers,
        grades,
        curves,
        speeds,
        powers,
        districts,
    };
    let network = Network {
        links,
        lengths,
        sets,
        elevs,
        headings,
        limits,
        codes,
        values,
        powers: link_powers,
        districts: link_districts,
    };
    let r = recalc_speeds(path, train_of(train), &mut cols, &network);
    PathAnswer::told(path, r)
}

// `reindex`: every link gets the number that a list has for it.
#[unsafe(no_mangle)]
pub extern "C" fn mochaspit_reindex(
    path: PathTpc,
    new: &[u32],
    offsets: &mut [f64],
    numbers: &mut [u32],
    grades: &mut [f64],
    curves: &mut [f64],
    speeds: &mut [f64],
    powers: &mut [f64],
    districts: &mut [u32],
) -> PathAnswer
    ensures { ◌≡◌ {A = Outcome}
        (left result (columns offsets.new numbers.new grades.new curves.new speeds.new powers.new districts.new))
        (reindex_of new.now path (columns offsets.old numbers.old grades.old curves.old speeds.old powers.old districts.old)) }
{
    let mut cols = PathColumnsMut {
        offsets,
        numbers,
        grades,
        curves,
        speeds,
        powers,
        districts,
    };
    PathAnswer::told(path, reindex(path, new, &mut cols))
}
