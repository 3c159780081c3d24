// Searches in a list of records.
use crate::answers::Reply;
use crate::columns::Columns;
use crate::fields::{Fault, count, dir, length};

// calc_idx LIST RECORDS OFFSET HINT DIRECTION
pub fn calc_idx(columns: &Columns, args: &[&[u8]]) -> Result<Reply, Fault> {
    let [list, records, offset, hint, to] = args else {
        return Err(Fault::Unreadable);
    };
    let (col, n) = columns.list(list, records)?;
    let found = lookup::calc_idx::calc_idx(col, n, length(offset)?, count(hint)?, dir(to)?);
    Ok(Reply::from(found))
}
