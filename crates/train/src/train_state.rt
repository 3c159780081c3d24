// The record of a train's position.
ghost use Rattle.std.specs.Prelude.{◌≡◌};
ghost use Rattle.train.specs.Position.{state_finite};

use si::{Force, Length};

#[repr(C)]
#[derive(Clone, Copy)]
pub struct TrainState {
    pub offset: Length,
    pub offset_back: Length,
    pub length: Length,
    pub weight_static: Force,
    pub link_idx_front: u32,
    pub link_idx_back: u32,
    pub offset_in_link: Length,
}

// Question 1 of a position: every number finite, the length above 0.
pub fn state_finite(s: TrainState) -> bool
    ensures { result ≡ state_finite s }
{
    let finite = ieee::is_finite(s.offset.0)
        & (ieee::is_finite(s.offset_back.0)
            & (ieee::is_finite(s.length.0)
                & (ieee::is_finite(s.weight_static.0) & ieee::is_finite(s.offset_in_link.0))));
    finite & (0.0 < s.length.0)
}
