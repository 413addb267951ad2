// The job on one panel, written once for every kind of sample.
use crate::report::{show_reading, show_refusal, show_sample};
use grid::sample::Sample;
use grid::size::{GridSize, Place};
use line::elimination::Elimination;
use line::solver::LineSolver;
use panel::record::{Order, Panel};
use panel_fault::PanelFault;
use panel_file::fill;
use std::io;

// A panel with its size and its three grids.
#[derive(Drop)]
struct Job<K: Sample> {
    panel: Panel,
    size: GridSize,
    samples: Vec<K>,
    halves: Vec<K>,
    controls: Vec<K>,
}

impl<K: Sample> Job<K> {
    fn read(&self, x: i32, y: i32) -> Result<(K, u32), PanelFault> {
        self.panel.read(self.controls.as_slice(), x, y)
    }

    fn probe(&mut self, row: i32, column: i32, new: K) -> Result<(), PanelFault> {
        self.panel
            .probe(self.samples.as_mut_slice(), row, column, new)
    }

    fn fit(&mut self) -> Result<(), PanelFault> {
        self.panel.fit(
            self.samples.as_slice(),
            self.halves.as_mut_slice(),
            self.controls.as_mut_slice(),
            &Elimination,
            &Elimination,
        )
    }

    fn second_line(&mut self, line: i32) -> Result<(), PanelFault> {
        self.panel.second_line(
            self.halves.as_slice(),
            self.controls.as_mut_slice(),
            line,
            &Elimination,
        )
    }

    // Fits again what a probe in a row made stale: that row, and every column.
    fn fit_again(&mut self, row: i32) -> Result<(), PanelFault> {
        self.panel.first_line(
            self.samples.as_slice(),
            self.halves.as_mut_slice(),
            row,
            &Elimination,
        )?;
        for column in 1..=self.size.columns {
            self.second_line(i32::from(column))?;
        }
        Ok(())
    }

    // Eight readings along the middle row.
    fn show_pass(&self, rt: &HostRuntime) -> io::Result<()> {
        let GridSize { rows, columns } = self.size;
        let x = 32 * (i32::from(rows) / 2);
        let step = 4 * (i32::from(columns) - 1);
        println!(rt; "  a pass along x = {x}, in 32nds; readings in fine units:")?;
        for k in 0..8 {
            let y = 32i32.wrapping_add(step.wrapping_mul(k));
            show_reading(rt, x, y, &self.read(x, y))?;
        }
        Ok(())
    }

    // The reading at every sample in the area, and how far it is from the sample at most.
    fn show_samples(&self, rt: &HostRuntime) -> io::Result<()> {
        let GridSize { rows, columns } = self.size;
        let mut read = 0u64;
        let mut refused = 0u64;
        let mut worst = 0;
        for (index, sample) in self.samples.iter().enumerate() {
            let Some(Place { row, column }) = self.size.place_of(index) else {
                break;
            };
            if row >= usize::from(rows.min(64)) || column >= usize::from(columns.min(64)) {
                continue;
            }
            match self.read(32 * row as i32, 32 * column as i32) {
                Ok((reading, _)) => {
                    read = read.saturating_add(1);
                    worst = distance(&reading, sample).max(worst);
                }
                Err(_) => refused = refused.saturating_add(1),
            }
        }
        println!(rt;
            "  at the samples: {read} readings, {refused} refused, at most {worst} fine units from the sample"
        )
    }

    // Probes the middle place again, fits again what is stale, and reads there.
    fn show_probe(&mut self, rt: &HostRuntime) -> io::Result<()> {
        let GridSize { rows, columns } = self.size;
        let row = i32::from(rows) / 2;
        let column = i32::from(columns) / 2;
        let (x, y) = (32 * row, 32 * column);
        let middle = Place {
            row: usize::from(rows) / 2,
            column: usize::from(columns) / 2,
        };
        let Some(index) = self.size.index_of(middle) else {
            return Ok(());
        };
        let Some(old) = self.samples.get(index).copied() else {
            return Ok(());
        };
        let new = moved(&old);
        print!(rt; "  probe row {row}, column {column}, micrometres ")?;
        show_sample(rt, &old)?;
        print!(rt; " to ")?;
        show_sample(rt, &new)?;
        show_answer(rt, "", self.probe(row, column, new))?;
        show_reading(rt, x, y, &self.read(x, y))?;
        show_answer(rt, "    second line 1", self.second_line(1))?;
        let again = self.fit_again(row);
        show_answer(rt, "    its first line and every second line", again)?;
        show_reading(rt, x, y, &self.read(x, y))
    }

    // The whole job on a panel that was just made.
    fn show(&mut self, rt: &HostRuntime) -> io::Result<()> {
        println!(rt; "  made, rows first; before any line has run:")?;
        show_reading(rt, 32, 32, &self.read(32, 32))?;
        show_answer(rt, "    second line 1", self.second_line(1))?;
        let grade = <Elimination as LineSolver>::GRADE;
        print!(rt; "  fit by elimination, grade {grade}")?;
        show_answer(rt, "", self.fit())?;
        self.show_pass(rt)?;
        self.show_samples(rt)?;
        self.show_probe(rt)
    }
}

// A call's answer: accepted, or refused.
fn show_answer(rt: &HostRuntime, call: &str, answer: Result<(), PanelFault>) -> io::Result<()> {
    print!(rt; "{call}: ")?;
    match answer {
        Ok(()) => println!(rt; "ok"),
        Err(fault) => show_refusal(rt, fault),
    }
}

// The greatest distance of a reading's parts from 16 times those of a sample.
fn distance<K: Sample>(reading: &K, sample: &K) -> u64 {
    (1..=K::PARTS)
        .map(|part| (16 * i64::from(sample.part(part))).abs_diff(i64::from(reading.part(part))))
        .max()
        .unwrap_or(0)
}

// The sample with its last part moved by half a millimetre, toward 0 or away from it, so that it stays within the limit.
fn moved<K: Sample>(old: &K) -> K {
    let part = old.part(K::PARTS);
    let new = if part > 0 { part - 500 } else { part + 500 };
    old.replace_part(K::PARTS, new)
}

// Loads the samples of a file into grids of a kind, makes the panel and does the job.
pub(crate) fn show_panel<K: Sample + Clone>(
    rt: &HostRuntime,
    bytes: &[u8],
    size: GridSize,
    blank: K,
) -> anyhow::Result<()> {
    let mut samples = vec![in rt.alloc(); blank; size.count()]?;
    let halves = vec![in rt.alloc(); blank; size.count()]?;
    let controls = vec![in rt.alloc(); blank; size.count()]?;
    if let Err(fault) = fill(bytes, samples.as_mut_slice()) {
        let number = fault.number();
        println!(rt; "  refused {number}: the grid does not take the file's samples")?;
        return Ok(());
    }
    let made = Panel::make(
        i32::from(size.rows),
        i32::from(size.columns),
        Order::RowsFirst,
        samples.as_slice(),
        halves.as_slice(),
        controls.as_slice(),
    );
    match made {
        Ok(panel) => {
            let mut job = Job {
                panel,
                size,
                samples,
                halves,
                controls,
            };
            job.show(rt)?;
        }
        Err(fault) => show_refusal(rt, fault)?,
    }
    Ok(())
}
