// The float draws, decided: from payload words and matrices to a verdict and three corners. Nothing
// here sees a light, the plane, a depth or a texel.
#![tactic(auto)]

pub mod corner;
pub mod verdicts;
