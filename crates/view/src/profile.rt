// Link borders and heights of every link joined, dropped ones too.
use crate::history::put;
use link::elev::elev_at;
use link::network::{Network, link_numbers};
use path::columns::PathColumns;
use path::link_point::{LinkPoint, link_point_at};

// Where a link begins, and its number.
#[derive(Clone, Copy, Default)]
pub struct Border {
    pub offset: f64,
    pub link: u32,
}

// The height at an offset; none where the line is broken.
#[derive(Clone, Copy, Default)]
pub struct Height {
    pub offset: f64,
    pub height: Option<f64>,
}

// The borders of the links at link points from..to, behind the first n; how many there are then.
pub fn add_borders(
    path: &PathColumns,
    from: usize,
    to: usize,
    borders: &mut [Border],
    n: usize,
) -> usize {
    let mut m = n;
    for k in from..to {
        let p = link_point_at(path.offsets, path.numbers, k);
        let border = Border {
            offset: p.offset.0,
            link: p.link_idx,
        };
        m = put(&mut *borders, m, border);
    }
    m
}

// The heights of a link point's link, as the table has them, and a break behind them; a link without elevations adds a break alone.
fn add_link(p: LinkPoint, network: &Network, heights: &mut [Height], n: usize) -> usize {
    let base = p.offset.0;
    let l = link_numbers(network.links, p.link_idx as usize);
    let first = l.elevs_first as usize;
    let end = first + l.elevs_count as usize;
    let mut m = n;
    for i in first..end {
        let e = elev_at(network.elevs, i);
        let height = Height {
            offset: base + e.offset.0,
            height: Some(e.elev.0),
        };
        m = put(&mut *heights, m, height);
    }
    let end_of_line = Height {
        offset: base,
        height: None,
    };
    put(&mut *heights, m, end_of_line)
}

// The heights of the links at link points from..to, behind the first n; how many there are then.
pub fn add_heights(
    path: &PathColumns,
    from: usize,
    to: usize,
    network: &Network,
    heights: &mut [Height],
    n: usize,
) -> usize {
    let mut m = n;
    for k in from..to {
        let p = link_point_at(path.offsets, path.numbers, k);
        m = add_link(p, network, &mut *heights, m);
    }
    m
}
