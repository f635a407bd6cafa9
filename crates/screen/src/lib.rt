// The screen: a plane of 320 by 240 pixels of four bytes, and a depth for each pixel in two forms.
// Rules 1.1, 1.7 and 6.1 to 6.4 of docs/RULES.md; `rgb555_dither`, `write_pixel` and `pixel` of
// the original.
#![tactic(auto)]

pub mod bounds;
pub mod depths;
pub mod dither;
pub mod plane;
