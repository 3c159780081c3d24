// Numbers out of text: decimals with one rounding, f64 as 0x and 16 hex digits, and whole numbers; and why a text is none.
#![tactic(auto)]

pub mod digits; // a digit, and the number that digits write
pub mod decimal; // a decimal: sign, digits, point, digits
pub mod number; // an f64 as a decimal or as its bits
pub mod whole; // a whole number below 2^32
pub mod fault; // why a text is no number
