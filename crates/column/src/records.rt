// Records of a column: each takes as many entries as its layout says, one record after the other.
ghost use Rattle.std.specs.Prelude.{◌≡◌, ℕ, ◌<◌, drop, slice_index_or};
ghost use Rattle.std.proofs.lemmas.List.Edits.{sets};
ghost use Rattle.std.proofs.Common.{rules};
ghost use Rattle.column.specs.Records.{Layout, record_at, put_record, two, three, four};

use crate::entries::{Entry, get, set};
use crate::{Four, Three, Two};

// What a record is made of, and how it stands in a column.
pub trait Record: Copy {
    type Of: Entry;

    ghost layout: { Layout Self.Of Self };

    ghost WIDTH: { ℕ };

    // Entries to a record.
    const WIDTH: usize;

    // The record at the front of a column, with zeros for what is not there.
    fn unpack(col: &[Self::Of]) -> Self
        ensures { result ≡ layout.unpack col.now };

    // Stores the record at the front of a column, as far as it has entries.
    fn pack(self, col: &mut [Self::Of])
        ensures { col.new ≡ sets col.old 0 (layout.pack self) };

    ghost some_width: { 0 < WIDTH };

    ghost own_width: { WIDTH ≡ layout.width };
}

impl Record for Two {
    type Of = f64;

    ghost layout = { two };

    ghost WIDTH = { 2 };

    const WIDTH: usize = 2;

    fn unpack(col: &[f64]) -> Two {
        Two(get(col, 0), get(col, 1))
    }

    fn pack(self, col: &mut [f64]) {
        set(&mut *col, 0, self.0);
        set(col, 1, self.1);
    }

    ghost some_width = { Prim.search rules };

    ghost own_width = { Prim.search rules };
}

impl Record for Three {
    type Of = f64;

    ghost layout = { three };

    ghost WIDTH = { 3 };

    const WIDTH: usize = 3;

    fn unpack(col: &[f64]) -> Three {
        Three(get(col, 0), get(col, 1), get(col, 2))
    }

    fn pack(self, col: &mut [f64]) {
        set(&mut *col, 0, self.0);
        set(&mut *col, 1, self.1);
        set(col, 2, self.2);
    }

    ghost some_width = { Prim.search rules };

    ghost own_width = { Prim.search rules };
}

impl Record for Four {
    type Of = u32;

    ghost layout = { four };

    ghost WIDTH = { 4 };

    const WIDTH: usize = 4;

    fn unpack(col: &[u32]) -> Four {
        Four(get(col, 0), get(col, 1), get(col, 2), get(col, 3))
    }

    fn pack(self, col: &mut [u32]) {
        set(&mut *col, 0, self.0);
        set(&mut *col, 1, self.1);
        set(&mut *col, 2, self.2);
        set(col, 3, self.3);
    }

    ghost some_width = { Prim.search rules };

    ghost own_width = { Prim.search rules };
}

// Record i of a column.
pub fn record_at<R: Record>(col: &[R::Of], i: usize) -> R
    ensures { result ≡ record_at R.layout col.now i }
{
    if i <= col.len() / R::WIDTH {
        R::unpack(&col[R::WIDTH * i..])
    } else {
        R::unpack(&col[..0])
    }
}

// Stores record i.
pub fn put_record<R: Record>(col: &mut [R::Of], i: usize, r: R)
    ensures { col.new ≡ put_record R.layout col.old i r }
{
    if i <= col.len() / R::WIDTH {
        r.pack(&mut col[R::WIDTH * i..]);
    }
}
