// The families of lines, each for every length from 2 to 64.
use crate::random::Random;
use crate::tally::Tally;
use line::solver::{LIMIT, LONGEST, SHORTEST};
use std::array;

// All numbers at one limit, then all at the other.
pub(crate) fn constant() -> Tally {
    starts(&[[LIMIT; LONGEST], [-LIMIT; LONGEST]])
}

// From limit to limit at each place, from the one and from the other.
pub(crate) fn alternating() -> Tally {
    starts(&[alternation(LIMIT, -LIMIT), alternation(-LIMIT, LIMIT)])
}

fn alternation(first: i64, second: i64) -> [i64; LONGEST] {
    array::from_fn(|i| if i % 2 == 0 { first } else { second })
}

// The start of each of these lines, at every length.
fn starts(lines: &[[i64; LONGEST]]) -> Tally {
    let mut tally = Tally::default();
    for n in SHORTEST..=LONGEST {
        for line in lines {
            tally.take(&line[..n]);
        }
    }
    tally
}

// One number at a limit, the rest 0, at each place and at both limits.
pub(crate) fn single_peak() -> Tally {
    let mut tally = Tally::default();
    for n in SHORTEST..=LONGEST {
        for place in 0..n {
            tally.take(&peak(place, LIMIT)[..n]);
            tally.take(&peak(place, -LIMIT)[..n]);
        }
    }
    tally
}

fn peak(place: usize, height: i64) -> [i64; LONGEST] {
    array::from_fn(|i| if i == place { height } else { 0 })
}

// Ten lines of each length, their numbers drawn at random.
pub(crate) fn random_lines<F: Fn(&mut Random) -> i64>(random: &mut Random, draw: F) -> Tally
    requires { F.IsAlwaysCallable draw }
{
    let mut tally = Tally::default();
    for n in SHORTEST..=LONGEST {
        for _ in 0..10u8 {
            tally.take(&random.line(&draw)[..n]);
        }
    }
    tally
}
