// Grades or curves: the two kinds of records that stand along a line.

// The grades of a link, between its elevations, or its curves, between its headings.
#[derive(Clone, Copy, Debug, PartialEq, Eq)]
pub enum Lines {
    Grades,
    Curves,
}
