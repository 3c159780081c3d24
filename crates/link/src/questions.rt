// Questions 4 to 7 over a list of link numbers: the first position that fails.
ghost use Rattle.std.specs.Prelude.{◌≡◌, true, false, length};
ghost use Rattle.link.specs.Table.{table};
ghost use Rattle.link.specs.Questions as spec;

use crate::network::{Network, link_follows, link_numbers};
use crate::train_params::TrainType;

// The first so many link numbers of a plain list, or of link points, four numbers to a point.
#[derive(Clone, Copy)]
pub enum Numbers<'a> {
    Listed(&'a [u32], usize),
    OfPoints(&'a [u32], usize),
}

// The number of link point k.
pub fn point_number(list: &[u32], k: usize) -> u32
    ensures { result ≡ spec.number_at true list.now k }
{
    column::record_at::<column::Four>(list, k).3
}

impl Numbers<'_> {
    // How many there are.
    pub fn len(&self) -> usize
        ensures { result ≡ length (spec.numbers_in self.now) }
    {
        match self {
            Numbers::Listed(_, count) => *count,
            Numbers::OfPoints(_, count) => *count,
        }
    }

    // The number at position k.
    pub fn at(&self, k: usize) -> u32
        ensures { result ≡ spec.number_in self.now k }
    {
        match self {
            Numbers::Listed(list, _) => column::get(*list, k),
            Numbers::OfPoints(list, _) => point_number(*list, k),
        }
    }
}

// Question 5 of a list: each link follows the one before, the first the path's last link where it has one.
pub fn question5(list: &[u32], links: &[u32], last: Option<u32>) -> Option<usize>
    ensures { result ≡ spec.question5 links.now last (spec.numbers false list.now (length list.now)) }
{
    let mut before = last;
    for (k, n) in list.iter().enumerate() {
        let l = link_numbers(links, *n as usize);
        if let Some(prev) = before {
            if !link_follows(prev, l) {
                return Some(k);
            }
        }
        before = Some(l.idx_curr);
    }
    None
}

impl Network<'_> {
    // Question 4 of link numbers.
    pub fn question4(&self, numbers: &Numbers) -> Option<usize>
        ensures { result ≡ spec.question4 self.now.links.now self.now.lengths.now self.now.sets.now (spec.numbers_in numbers.now) }
    {
        (0..numbers.len()).find(|&k| !self.real_in(numbers.at(k)))
    }

    // Question 6 of link numbers.
    pub fn question6(&self, numbers: &Numbers) -> Option<usize>
        ensures { result ≡ spec.question6 (table self.now) (spec.numbers_in numbers.now) }
    {
        (0..numbers.len()).find(|&k| !self.well_formed(numbers.at(k)))
    }

    // Question 7 of link numbers.
    pub fn question7(&self, numbers: &Numbers, t: TrainType) -> Option<usize>
        ensures { result ≡ spec.question7 self.now.sets.now t (spec.numbers_in numbers.now) }
    {
        for k in 0..numbers.len() {
            let n = numbers.at(k);
            // this is the refusal with number 7, at place k
            let Some(_) = self.set_for(n as usize, t) else {
                return Some(k);
            };
        }
        None
    }
}
