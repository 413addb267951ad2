// A panel with its three grids, and short forms of the calls on them.
use grid::kinds::Point;
use grid::sample::Sample;
use line::elimination::Elimination;
use line::solver::LineSolver;
use panel::record::{Order, Panel};
use panel_fault::PanelFault;

#[derive(Drop)]
pub(crate) struct Kit<K: Sample, const N: usize> {
    pub(crate) panel: Panel,
    pub(crate) samples: [K; N],
    pub(crate) halves: [K; N],
    pub(crate) controls: [K; N],
    pub(crate) first_lines: i32,
    pub(crate) second_lines: i32,
}

impl<K: Sample, const N: usize> Kit<K, N> {
    // A panel just made; every half point and control point holds the same sample.
    pub(crate) fn made(
        rows: i32,
        columns: i32,
        order: Order,
        samples: [K; N],
        blank: K,
    ) -> Result<Kit<K, N>, PanelFault> {
        let halves = [blank; N];
        let controls = [blank; N];
        let panel = Panel::make(rows, columns, order, &samples, &halves, &controls)?;
        // By a match: the panel's crate keeps its pick to itself.
        let (first_lines, second_lines) = match order {
            Order::RowsFirst => (rows, columns),
            Order::ColumnsFirst => (columns, rows),
        };
        Ok(Kit {
            panel,
            samples,
            halves,
            controls,
            first_lines,
            second_lines,
        })
    }

    pub(crate) fn probe(&mut self, row: i32, column: i32, new: K) -> Result<(), PanelFault> {
        self.panel.probe(&mut self.samples, row, column, new)
    }

    // So many probes of the same sample at row 1 and column 1, all accepted.
    pub(crate) fn probe_often(&mut self, times: u32, new: K) -> Result<(), PanelFault> {
        for _ in 0..times {
            self.probe(1, 1, new)?;
        }
        Ok(())
    }

    pub(crate) fn first_by<S: LineSolver>(
        &mut self,
        line: i32,
        solver: &S,
    ) -> Result<(), PanelFault> {
        self.panel
            .first_line(&self.samples, &mut self.halves, line, solver)
    }

    pub(crate) fn second_by<S: LineSolver>(
        &mut self,
        line: i32,
        solver: &S,
    ) -> Result<(), PanelFault> {
        self.panel
            .second_line(&self.halves, &mut self.controls, line, solver)
    }

    pub(crate) fn first(&mut self, line: i32) -> Result<(), PanelFault> {
        self.first_by(line, &Elimination)
    }

    pub(crate) fn second(&mut self, line: i32) -> Result<(), PanelFault> {
        self.second_by(line, &Elimination)
    }

    // Every line at once, by two solvers.
    pub(crate) fn fit_by<S: LineSolver, T: LineSolver>(
        &mut self,
        first: &S,
        second: &T,
    ) -> Result<(), PanelFault> {
        self.panel.fit(
            &self.samples,
            &mut self.halves,
            &mut self.controls,
            first,
            second,
        )
    }

    // All first lines in their order.
    pub(crate) fn firsts(&mut self) -> Result<(), PanelFault> {
        for line in 1..=self.first_lines {
            self.first(line)?;
        }
        Ok(())
    }

    // All second lines in their order.
    pub(crate) fn seconds(&mut self) -> Result<(), PanelFault> {
        for line in 1..=self.second_lines {
            self.second(line)?;
        }
        Ok(())
    }

    // A panel made and fitted.
    pub(crate) fn fitted(
        rows: i32,
        columns: i32,
        order: Order,
        samples: [K; N],
        blank: K,
    ) -> Result<Kit<K, N>, PanelFault> {
        let mut kit = Kit::made(rows, columns, order, samples, blank)?;
        kit.firsts()?;
        kit.seconds()?;
        Ok(kit)
    }

    pub(crate) fn read(&self, x: i32, y: i32) -> Result<(K, u32), PanelFault> {
        self.panel.read(&self.controls, x, y)
    }
}

// The number of a refusal, and 0 of an acceptance.
pub(crate) fn number<A: Drop>(answer: Result<A, PanelFault>) -> u8 {
    answer.err().map_or(0, |fault| fault.number())
}

pub(crate) fn point(across: i32, along: i32, up: i32) -> Point {
    Point { across, along, up }
}
