// Point on a list of records.
use crate::answers::Reply;
use crate::columns::Columns;
use crate::fields::{Fault, count, dir, state};
use resistance::point::Point;

// The point INDEX.
fn point_at(w: &[u8]) -> Result<Point, Fault> {
    Ok(Point { idx: count(w)? })
}

// Point::new LIST RECORDS TRAIN FRONT BACK
// Point::calc_res LIST RECORDS TRAIN FRONT BACK INDEX DIRECTION
// Point::res_coeff_front LIST RECORDS INDEX
// Point::res_net_front LIST RECORDS TRAIN FRONT BACK INDEX
// Point::fix_cache INDEX SUB
pub fn answer(columns: &Columns, call: &[u8], args: &[&[u8]]) -> Result<Reply, Fault> {
    match (call, args) {
        (b"Point::new", [list, records, train, front, back]) => {
            let (col, n) = columns.list(list, records)?;
            let made = Point::new(col, n, state(columns, train, front, back)?);
            Ok(Reply::point(Point { idx: 0 }, made))
        }
        (b"Point::calc_res", [list, records, train, front, back, idx, to]) => {
            let (col, n) = columns.list(list, records)?;
            let s = state(columns, train, front, back)?;
            let p = point_at(idx)?;
            Ok(Reply::point_force(p, p.calc_res(col, n, s, dir(to)?)))
        }
        (b"Point::res_coeff_front", [list, records, idx]) => {
            let (col, n) = columns.list(list, records)?;
            let r = point_at(idx)?.res_coeff_front(col, n);
            Ok(Reply::from(r.map(|x| x.0)))
        }
        (b"Point::res_net_front", [list, records, train, front, back, idx]) => {
            let (col, n) = columns.list(list, records)?;
            let s = state(columns, train, front, back)?;
            let r = point_at(idx)?.res_net_front(col, n, s);
            Ok(Reply::from(r.map(|x| x.0)))
        }
        (b"Point::fix_cache", [idx, sub]) => {
            let p = point_at(idx)?;
            Ok(Reply::point(p, p.fix_cache(count(sub)?)))
        }
        _ => Err(Fault::Unreadable),
    }
}
