// Tests of the panel calls, in a crate of their own so that they do not have the panels' crate proved twice.
#![tactic(auto)]

#[cfg(test)]
mod checks;
pub mod coarse;
#[cfg(test)]
mod corner;
#[cfg(test)]
mod damaged;
#[cfg(test)]
mod grades;
#[cfg(test)]
mod kit;
#[cfg(test)]
mod lengths;
#[cfg(test)]
mod limits;
#[cfg(test)]
mod points;
#[cfg(test)]
mod probes;
#[cfg(test)]
mod stale;
#[cfg(test)]
mod whole;
