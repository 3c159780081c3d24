// Link points in their two columns: the offset, and four numbers (grade, curve and power count, link number).
ghost use Rattle.std.specs.Prelude.{◌≡◌, ◌+◌, ◌*◌, ◌≤◌, ◌<◌, length};
ghost use Rattle.path.specs.Records.{link_points, point_at};
ghost use Rattle.path.specs.Sound.{totals, count_of, is_curves};

use crate::lines::Lines;
use si::Length;

#[repr(C)]
#[derive(Clone, Copy)]
pub struct LinkPoint {
    pub offset: Length,
    pub grade_count: usize,
    pub curve_count: usize,
    pub cat_power_count: usize,
    pub link_idx: u32,
}

// Link point i; zeros for what lies past a column's end.
pub fn link_point_at(offsets: &[f64], numbers: &[u32], i: usize) -> LinkPoint
    ensures { result ≡ point_at offsets.now numbers.now i }
{
    let q = column::record_at::<column::Four>(numbers, i);
    LinkPoint {
        offset: Length(column::get(offsets, i)),
        grade_count: q.0 as usize,
        curve_count: q.1 as usize,
        cat_power_count: q.2 as usize,
        link_idx: q.3,
    }
}

// Link point i of columns that have it.
pub fn link_point_within(offsets: &[f64], numbers: &[u32], i: usize) -> LinkPoint
    requires i_in_bounds { i < length offsets.now }
    requires i_in_bounds_2 { 4 * i + 3 < length numbers.now }
    ensures { result ≡ point_at offsets.now numbers.now i }
{
    let k = 4 * i;
    LinkPoint {
        offset: Length(offsets[i]),
        grade_count: numbers[k] as usize,
        curve_count: numbers[k + 1] as usize,
        cat_power_count: numbers[k + 2] as usize,
        link_idx: numbers[k + 3],
    }
}

// The counts of the first n link points added up, as a link point with offset 0 and number 0.
pub fn add_counts(offsets: &[f64], numbers: &[u32], n: usize) -> LinkPoint
    requires { n ≤ 1025 }
    ensures { result ≡ totals (link_points n offsets.now numbers.now) }
{
    let mut grades = 0;
    let mut curves = 0;
    let mut powers = 0;
    for i in 0..n {
        let p = link_point_at(offsets, numbers, i);
        grades += p.grade_count;
        curves += p.curve_count;
        powers += p.cat_power_count;
    }
    LinkPoint {
        offset: Length(0.0),
        grade_count: grades,
        curve_count: curves,
        cat_power_count: powers,
        link_idx: 0,
    }
}

// How many grades or curves a link point has.
pub fn count_of(p: LinkPoint, lines: Lines) -> usize
    ensures { result ≡ count_of (is_curves lines) p }
{
    match lines {
        Lines::Grades => p.grade_count,
        Lines::Curves => p.curve_count,
    }
}
