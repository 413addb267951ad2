// Lines, their laws and the line solvers.
#![tactic(auto)]

pub mod elimination;
pub mod laws;
mod pivot;
pub mod residual;
pub mod solver;
#[cfg(test)]
mod tests;
