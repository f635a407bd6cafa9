// Clipping: triangles cut at the six planes of the view, before they are drawn.
#![tactic(auto)]

pub mod polygon;
pub mod vertex;
