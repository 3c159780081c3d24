// The direction of a search.

// Unk searches as Fwd does.
#[derive(Clone, Copy, Debug, PartialEq, Eq)]
pub enum Dir {
    Unk,
    Fwd,
    Bwd,
}
