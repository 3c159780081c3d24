// The columns of the link table out of a route whose lines can be read.
ghost use Rattle.std.specs.Prelude.{◌≤◌, ◌≡◌, length};
ghost use Rattle.route.specs.Filled as spec;

use crate::fields::{
    bytes_at, comparison_code, count_at, figure_code, float_at, head_code, place_of, type_of,
};
use crate::kinds::{Kind, TableLine, kind_of};
use crate::text::lines;
use column::{Three, Two};
use link::train_params::{TrainParams, TrainType};
use si::{Length, Mass, Ratio, Velocity};

// The columns of a link table, to be filled.
#[derive(Drop)]
pub struct TableColumns<'a> {
    pub links: &'a mut [u32],
    pub lengths: &'a mut [f64],
    pub sets: &'a mut [u32],
    pub elevs: &'a mut [f64],
    pub headings: &'a mut [f64],
    pub limits: &'a mut [f64],
    pub codes: &'a mut [u32],
    pub values: &'a mut [f64],
    pub powers: &'a mut [f64],
    pub districts: &'a mut [u32],
}

// The link and the set place that a line belongs to, and how many records of each pool stand before it.
#[derive(Clone, Copy, Default)]
pub struct Here {
    pub link: usize,
    pub place: usize,
    pub elevs: u32,
    pub headings: u32,
    pub powers: u32,
    pub conditions: u32,
    pub limits: u32,
}

// The first entry of link i among the link numbers; a place past every column for a number that no table has.
fn link_entry(i: usize) -> usize
    ensures { result ≤ 1000000 }
{
    if i < 65536 {
        return 11 * i;
    }
    1000000
}

// The first entry of place p of link i among the sets.
fn set_entry(i: usize, p: usize) -> usize
    ensures { result ≤ 4000000 }
{
    if i < 65536 {
        if p < 8 {
            return 48 * i + 6 * p;
        }
    }
    4000000
}

// One more in entry k.
fn bump(col: &mut [u32], k: usize) {
    let n = column::get(&*col, k).saturating_add(1);
    column::set(&mut *col, k, n);
}

// Where the records of a link begin in the pools; there are none yet.
fn put_firsts(h: Here, links: &mut [u32]) {
    let k = link_entry(h.link);
    column::set(&mut *links, k + 5, h.elevs);
    column::set(&mut *links, k + 7, h.headings);
    column::set(&mut *links, k + 9, h.powers);
}

// The numbers of a link and of its neighbours.
fn put_link(text: &[u8], at: usize, h: Here, links: &mut [u32]) {
    let k = link_entry(h.link);
    column::set(&mut *links, k, count_at(text, at, 1));
    column::set(&mut *links, k + 1, count_at(text, at, 3));
    column::set(&mut *links, k + 2, count_at(text, at, 4));
    column::set(&mut *links, k + 3, count_at(text, at, 5));
    column::set(&mut *links, k + 4, count_at(text, at, 6));
}

// A set, with no conditions and no limits yet.
fn put_set(text: &[u8], at: usize, h: Here, sets: &mut [u32]) {
    let k = set_entry(h.link, h.place);
    column::set(&mut *sets, k, 1);
    column::set(
        &mut *sets,
        k + 1,
        head_code(bytes_at(text, at, 2)).unwrap_or(0),
    );
    column::set(&mut *sets, k + 2, h.conditions);
    column::set(&mut *sets, k + 4, h.limits);
}

// A line of a link or of a set: its numbers go into the columns, and its record counts for the link or the set.
fn put_in_links(text: &[u8], at: usize, line: TableLine, h: Here, table: &mut TableColumns) {
    let links = &mut *table.links;
    let sets = &mut *table.sets;
    match line {
        TableLine::Train => {}
        TableLine::Link => {
            put_link(text, at, h, &mut *links);
            put_firsts(h, &mut *links);
            column::set(&mut *table.lengths, h.link, float_at(text, at, 2));
        }
        TableLine::Elev => bump(&mut *links, link_entry(h.link) + 6),
        TableLine::Heading => bump(&mut *links, link_entry(h.link) + 8),
        TableLine::Power => bump(&mut *links, link_entry(h.link) + 10),
        TableLine::Set => put_set(text, at, h, &mut *sets),
        TableLine::When => bump(&mut *sets, set_entry(h.link, h.place) + 3),
        TableLine::Limit => bump(&mut *sets, set_entry(h.link, h.place) + 5),
    }
}

fn pair_at(text: &[u8], at: usize) -> Two {
    Two(float_at(text, at, 1), float_at(text, at, 2))
}

fn triple_at(text: &[u8], at: usize) -> Three {
    Three(
        float_at(text, at, 1),
        float_at(text, at, 2),
        float_at(text, at, 3),
    )
}

// A line of a pool: its numbers become the pool's next record.
fn put_in_pools(text: &[u8], at: usize, line: TableLine, h: Here, table: &mut TableColumns) {
    match line {
        TableLine::Train | TableLine::Link | TableLine::Set => {}
        TableLine::Elev => {
            column::put_record(&mut *table.elevs, h.elevs as usize, pair_at(text, at));
        }
        TableLine::Heading => {
            column::put_record(&mut *table.headings, h.headings as usize, pair_at(text, at));
        }
        TableLine::Limit => {
            column::put_record(&mut *table.limits, h.limits as usize, triple_at(text, at));
        }
        TableLine::When => {
            let k = h.conditions as usize;
            let figure = figure_code(bytes_at(text, at, 1)).unwrap_or(0);
            let comparison = comparison_code(bytes_at(text, at, 2)).unwrap_or(0);
            column::set(&mut *table.codes, 2 * k, figure);
            column::set(&mut *table.codes, 2 * k + 1, comparison);
            column::set(&mut *table.values, k, float_at(text, at, 3));
        }
        TableLine::Power => {
            let k = h.powers as usize;
            column::put_record(&mut *table.powers, k, triple_at(text, at));
            column::set(&mut *table.districts, k, count_at(text, at, 4));
        }
    }
}

// Where the records of a line go: its own link or set for a line that begins one.
fn arrive(text: &[u8], at: usize, line: TableLine, h: Here) -> Here {
    let mut r = h;
    match line {
        TableLine::Link => r.link = count_at(text, at, 1) as usize,
        TableLine::Set => r.place = place_of(bytes_at(text, at, 1)).unwrap_or(8),
        _ => {}
    }
    r
}

// The same behind the line.
fn leave(line: TableLine, h: Here) -> Here {
    let mut r = h;
    match line {
        TableLine::Train | TableLine::Link | TableLine::Set => {}
        TableLine::Elev => r.elevs = h.elevs.saturating_add(1),
        TableLine::Heading => r.headings = h.headings.saturating_add(1),
        TableLine::Power => r.powers = h.powers.saturating_add(1),
        TableLine::When => r.conditions = h.conditions.saturating_add(1),
        TableLine::Limit => r.limits = h.limits.saturating_add(1),
    }
    r
}

// The link table of a route, into columns that are zero.
pub fn fill_table(text: &[u8], table: &mut TableColumns) {
    let mut h = Here::default();
    for at in lines(text) {
        if let Kind::Table(line) = kind_of(text, at) {
            h = arrive(text, at, line, h);
            put_in_links(text, at, line, h, table);
            put_in_pools(text, at, line, h, table);
            h = leave(line, h);
        }
    }
}

// The whole numbers behind the word of a line, into a column; how many there are.
pub fn fill_list(text: &[u8], at: usize, col: &mut [u32]) -> usize
    ensures col_after { col.new ≡ spec.listed text.now at 0 col.old }
    ensures value { result ≡ spec.list_length text.now at 0 col.old }
    ensures upper_bound { result ≤ length col.new }
{
    for i in 0..col.len() {
        if bytes_at(text, at, i + 1).is_empty() {
            return i;
        }
        col[i] = count_at(text, at, i + 1);
    }
    col.len()
}

// The train of the line at `at`.
pub fn train_of(text: &[u8], at: usize) -> TrainParams
    ensures { result ≡ spec.train_of text.now at }
{
    TrainParams {
        length: Length(float_at(text, at, 1)),
        speed_max: Velocity(float_at(text, at, 2)),
        towed_mass_static: Mass(float_at(text, at, 3)),
        mass_per_brake: Mass(float_at(text, at, 4)),
        axle_count: count_at(text, at, 5),
        train_type: type_of(bytes_at(text, at, 6)).unwrap_or(TrainType::None),
        curve_coeff_0: Ratio(float_at(text, at, 7)),
        curve_coeff_1: Ratio(float_at(text, at, 8)),
        curve_coeff_2: Ratio(float_at(text, at, 9)),
    }
}
