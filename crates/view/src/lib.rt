// What a run looks like: the limits that were laid, a table of stretches, and a picture.
#![tactic(auto)]

pub mod history; // limits of every link joined, dropped ones too
pub mod profile; // link borders and heights of every link joined, dropped ones too
pub mod holders; // what holds at an offset, and up to where
pub mod stretches; // the table
pub mod names; // a file's name as text of the picture
pub mod figures; // figures of the picture
pub mod axes; // its frame, and the axes
pub mod legend; // its title and legend
pub mod picture; // the picture as SVG
