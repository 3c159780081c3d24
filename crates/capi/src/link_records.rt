// Where the grades and curves of a link lie: the library's call under a C name, with the same equation.
ghost use Rattle.std.specs.Prelude.{◌≡◌, true, false};
ghost use Rattle.path.specs.Records.{columns};
ghost use Rattle.path_link_records.specs.LinkRecords.{link_range_of};

use path::columns::PathColumns;
use path::lines::Lines;
use path::path_tpc::PathTpc;
use path_link_records::link_records::{RangeAnswer, link_range};

// The range of link k's records in the column of grades.
#[unsafe(no_mangle)]
pub extern "C" fn mochaspit_link_grades(
    path: PathTpc,
    k: usize,
    offsets: &[f64],
    numbers: &[u32],
    grades: &[f64],
    curves: &[f64],
    speeds: &[f64],
    powers: &[f64],
    districts: &[u32],
) -> RangeAnswer
    ensures { result ≡ link_range_of false k path (columns offsets.now numbers.now grades.now curves.now speeds.now powers.now districts.now) }
{
    let cols = PathColumns {
        offsets,
        numbers,
        grades,
        curves,
        speeds,
        powers,
        districts,
    };
    RangeAnswer::from(link_range(Lines::Grades, path, k, &cols))
}

// The range of link k's records in the column of curves.
#[unsafe(no_mangle)]
pub extern "C" fn mochaspit_link_curves(
    path: PathTpc,
    k: usize,
    offsets: &[f64],
    numbers: &[u32],
    grades: &[f64],
    curves: &[f64],
    speeds: &[f64],
    powers: &[f64],
    districts: &[u32],
) -> RangeAnswer
    ensures { result ≡ link_range_of true k path (columns offsets.now numbers.now grades.now curves.now speeds.now powers.now districts.now) }
{
    let cols = PathColumns {
        offsets,
        numbers,
        grades,
        curves,
        speeds,
        powers,
        districts,
    };
    RangeAnswer::from(link_range(Lines::Curves, path, k, &cols))
}
