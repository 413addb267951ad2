// Sample kinds, the places of a grid that is stored row by row, and the check that calls are made of.
#![tactic(auto)]

pub mod checks;
pub mod kinds;
pub mod sample;
pub mod size;
#[cfg(test)]
mod tests;
