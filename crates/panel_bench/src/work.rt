// A panel of 64 by 64 random samples, fitted or read many times.
use grid::sample::Sample;
use line::elimination::Elimination;
use panel::record::{Order, Panel};

// What is counted.
#[derive(Clone, Copy)]
pub(crate) enum Work {
    Fit,
    Read,
}

// Random bits, the same in every run. The program line_check has a generator of its own: the two draw other ranges, and a crate for
// ten lines would be no plainer.
#[derive(Drop)]
struct Random {
    state: u64,
}

impl Random {
    fn next(&mut self) -> u32 {
        self.state = self
            .state
            .wrapping_mul(6_364_136_223_846_793_005)
            .wrapping_add(1_442_695_040_888_963_407);
        (self.state >> 33) as u32
    }

    // A random part, within the limit of a panel.
    fn part(&mut self) -> i32 {
        (self.next() % 200_001) as i32 - 100_000
    }

    // A random place in the area of a panel of 64 by 64.
    fn place(&mut self) -> i32 {
        (32 + self.next() % 2016) as i32
    }

    // The sample with every part random.
    fn sample<K: Sample>(&mut self, sample: K) -> K {
        let mut changed = sample;
        for part in 1..=K::PARTS {
            changed = changed.replace_part(part, self.part());
        }
        changed
    }
}

// The first parts of a grid, added up.
fn sum_of<K: Sample>(grid: &[K]) -> i64 {
    grid.iter().fold(
        0i64,
        |sum, sample| sum.wrapping_add(i64::from(sample.part(1))),
    )
}

// Readings at random places.
fn readings<K: Sample>(panel: &Panel, controls: &[K], times: u32) -> i64 {
    let mut random = Random { state: 777 };
    let mut sum = 0i64;
    for _ in 0..times {
        let x = random.place();
        let y = random.place();
        if let Ok((reading, tolerance)) = panel.read(controls, x, y) {
            sum = sum
                .wrapping_add(i64::from(reading.part(1)))
                .wrapping_add(i64::from(tolerance));
        }
    }
    sum
}

// Whole fits, a sample changed before each. The panel and its grids are no struct: that one of any kind fits in memory is not proved.
fn fits<K: Sample>(
    panel: &mut Panel,
    samples: &mut [K],
    halves: &mut [K],
    controls: &mut [K],
    times: u32,
) -> i64 {
    let mut sum = 0i64;
    for i in 0..times {
        if let Some(old) = samples.first() {
            let new = old.replace_part(1, (i % 1000) as i32);
            let _ = panel.probe(samples, 1, 1, new);
        }
        let _ = panel.fit(samples, halves, controls, &Elimination, &Elimination);
        sum = sum.wrapping_add(sum_of(controls));
    }
    sum
}

// Makes and fits a panel and does the work so many times; answers a check sum. One word of the command names the work and another the kind of
// sample: a closure for the work would take one kind, so the work is an enum.
pub(crate) fn done<K: Sample, const N: usize>(samples: &mut [K; N], work: Work, times: u32) -> i64 {
    let mut halves = *samples;
    let mut controls = *samples;
    let mut random = Random { state: 12_409 };
    for sample in samples.iter_mut() {
        *sample = random.sample(*sample);
    }
    let made = Panel::make(64, 64, Order::RowsFirst, samples, &halves, &controls);
    let Ok(mut panel) = made else {
        return 0;
    };
    let _ = panel.fit(
        samples,
        &mut halves,
        &mut controls,
        &Elimination,
        &Elimination,
    );
    match work {
        Work::Fit => fits(&mut panel, samples, &mut halves, &mut controls, times),
        Work::Read => readings(&panel, &controls, times),
    }
}
