// The surface over a grid of control points: the lines around a place, its weights, readings, and the laws of exact control grids.
#![tactic(auto)]

pub mod laws;
pub mod patch;
#[cfg(test)]
mod tests;
