// Entries of a column. What lies past a column's end reads as zero, +0 for an f64, and is not written.
ghost use Rattle.std.specs.Prelude.{◌≡◌, ◌+◌, ◌≤◌, length, slice_index_or, slice_set, min, take};
ghost use Rattle.std.proofs.Common.{rules};
ghost use Rattle.ieee.specs.Number.{+0, all_finite};
ghost use Rattle.ieee.proofs.Same.{zero-literal};
ghost use Rattle.column.specs.Entries.{moved, zero_from, move_front, open_gap, close_gap};

// What a column holds.
pub trait Entry: Copy {
    ghost zero: { Self };

    // The zero that past a column's end is read.
    fn zero() -> Self
        ensures { result ≡ zero };

    // Moves n entries from j on down to i.
    fn move_down(col: &mut [Self], i: usize, j: usize, n: usize)
        requires i_le_j { i ≤ j }
        requires source { j + n ≤ length col.old }
        ensures { col.new ≡ moved i j n col.old }
    {
        move_at_once(col, i, j, n);
    }

    // Moves n entries from j on up to i.
    fn move_up(col: &mut [Self], i: usize, j: usize, n: usize)
        requires j_le_i { j ≤ i }
        requires target { i + n ≤ length col.old }
        ensures { col.new ≡ moved i j n col.old }
    {
        move_at_once(col, i, j, n);
    }

    // A copy is always made, and is the same.
    ghost always_copied: { (x : Self) → Self.is_infallible x };

    ghost same_copied: { (x y : Self) → Self.is_clone x y → y ≡ x };
}

impl Entry for f64 {
    ghost zero = { +0 };

    fn zero() -> f64 {
        0.0
    }

    fn move_down(col: &mut [f64], i: usize, j: usize, n: usize) {
        blocks_down(col, 0.0, i, j, n);
    }

    fn move_up(col: &mut [f64], i: usize, j: usize, n: usize) {
        blocks_up(col, 0.0, i, j, n);
    }

    ghost always_copied = { Prim.search rules };

    ghost same_copied = { Prim.search rules };
}

impl Entry for u32 {
    ghost zero = { 0 };

    fn zero() -> u32 {
        0
    }

    fn move_down(col: &mut [u32], i: usize, j: usize, n: usize) {
        blocks_down(col, 0, i, j, n);
    }

    fn move_up(col: &mut [u32], i: usize, j: usize, n: usize) {
        blocks_up(col, 0, i, j, n);
    }

    ghost always_copied = { Prim.search rules };

    ghost same_copied = { Prim.search rules };
}

// The entry at i.
pub fn get<T: Entry>(col: &[T], i: usize) -> T
    ensures { result ≡ slice_index_or col.now i T.zero }
{
    if i < col.len() { col[i] } else { T::zero() }
}

// Stores x at i.
pub fn set<T: Entry>(col: &mut [T], i: usize, x: T)
    ensures { col.new ≡ slice_set col.old i x }
{
    if i < col.len() {
        col[i] = x;
    }
}

// The entries from `from` on become zero.
pub fn zero_from<T: Entry>(col: &mut [T], from: usize)
    ensures { col.new ≡ zero_from T.zero from col.old }
{
    if from < col.len() {
        col[from..].fill(T::zero());
    }
}

// Moves n entries from j on to i.
fn move_at_once<T: Copy>(col: &mut [T], i: usize, j: usize, n: usize)
    requires target { i + n ≤ length col.old }
    requires source { j + n ≤ length col.old }
    ensures { col.new ≡ moved i j n col.old }
{
    col.copy_within(j..j + n, i);
}

// Moves n entries, at most 256, from j on to i. All are read before the first is stored, so the places may overlap; the two
// copies compile to one memmove.
fn move_block<T: Copy>(col: &mut [T], z: T, i: usize, j: usize, n: usize)
    requires few { n ≤ 256 }
    requires target { i + n ≤ length col.old }
    requires source { j + n ≤ length col.old }
    ensures { col.new ≡ moved i j n col.old }
{
    let mut block = [z; 256];
    for k in 0..n {
        block[k] = col[j + k];
    }
    for k in 0..n {
        col[i + k] = block[k];
    }
}

// Moves n entries from j on down to i, the first block first.
fn blocks_down<T: Copy>(col: &mut [T], z: T, i: usize, j: usize, n: usize)
    requires i_le_j { i ≤ j }
    requires source { j + n ≤ length col.old }
    ensures { col.new ≡ moved i j n col.old }
{
    let mut k = 0;
    while k < n {
        let m = (n - k).min(256);
        move_block(&mut *col, z, i + k, j + k, m);
        k += m;
    }
}

// Moves n entries from j on up to i, the last block first.
fn blocks_up<T: Copy>(col: &mut [T], z: T, i: usize, j: usize, n: usize)
    requires j_le_i { j ≤ i }
    requires target { i + n ≤ length col.old }
    ensures { col.new ≡ moved i j n col.old }
{
    let mut k = n;
    while 0 < k {
        let m = k.min(256);
        k -= m;
        move_block(&mut *col, z, i + k, j + k, m);
    }
}

// The entries from `from` up to `to` move to the front, and the rest becomes zero.
pub fn move_front<T: Entry>(col: &mut [T], from: usize, to: usize)
    ensures { col.new ≡ move_front T.zero from to col.old }
{
    let end = to.min(col.len());
    let first = from.min(end);
    T::move_down(&mut *col, 0, first, end - first);
    zero_from(col, end - first);
}

// The entries from `at` up to `end` move w places up, where there is room. The w entries from `at` on stay as they were.
pub fn open_gap<T: Entry>(col: &mut [T], at: usize, end: usize, w: usize)
    ensures { col.new ≡ open_gap at end w col.old }
{
    if (at <= end) && (end <= col.len()) && (w <= col.len() - end) {
        T::move_up(&mut *col, at + w, at, end - at);
    }
}

// The w entries from `at` on go out: those after them, up to `end`, move down, and the w entries before `end` become zero.
pub fn close_gap<T: Entry>(col: &mut [T], at: usize, end: usize, w: usize)
    ensures { col.new ≡ close_gap T.zero at end w col.old }
{
    if (end <= col.len()) && (at <= end) && (w <= end - at) {
        T::move_down(&mut *col, at, at + w, end - at - w);
        col[end - w..end].fill(T::zero());
    }
}

// Whether every entry below n is finite. One pass with no early exit, so that it compiles to vector code.
pub fn all_finite(col: &[f64], n: usize) -> bool
    ensures { result ≡ all_finite (take n col.now) }
{
    let mut ok = true;
    for x in &col[..n.min(col.len())] {
        ok = ok & (*x - *x == 0.0);
    }
    ok
}
