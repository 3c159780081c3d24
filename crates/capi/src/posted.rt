// The speed posted at an offset: the library's call under a C name, with the same equation.
ghost use Rattle.std.specs.Prelude.{◌≡◌};
ghost use Rattle.path.specs.Records.{columns};
ghost use Rattle.path_posted.specs.Posted.{posted_of};

use path::columns::PathColumns;
use path::path_tpc::PathTpc;
use path_posted::posted_speed::{PostedAnswer, posted_speed};
use si::Length;

// `posted_speed`: the speed of the last speed point at or before the offset.
#[unsafe(no_mangle)]
pub extern "C" fn mochaspit_posted_speed(
    path: PathTpc,
    offset: Length,
    offsets: &[f64],
    numbers: &[u32],
    grades: &[f64],
    curves: &[f64],
    speeds: &[f64],
    powers: &[f64],
    districts: &[u32],
) -> PostedAnswer
    ensures { result ≡ posted_of offset.0 path (columns offsets.now numbers.now grades.now curves.now speeds.now powers.now districts.now) }
{
    let cols = PathColumns {
        offsets,
        numbers,
        grades,
        curves,
        speeds,
        powers,
        districts,
    };
    PostedAnswer::from(posted_speed(path, offset, &cols))
}
