// A limit as it lies on a path.

// From its start to the end of its board, and in its tail up to `end`; its speed, and the number of its link.
#[derive(Clone, Copy, Default)]
pub struct Laid {
    pub start: f64,
    pub board: f64,
    pub end: f64,
    pub value: f64,
    pub link: u32,
}
