// Why a panel call refuses, the numbers of the refusals, and how a solver's refusal becomes the panel's.
#![tactic(auto)]

ghost use Rattle.std.specs.Prelude.{◌≡◌};
ghost use Rattle.panel_fault.specs.Refusal.{fault_number, as_fault};

use line::solver::SolveFault;
use thiserror::Error;

// Why a call was refused. The call then left the panel and all grids as they were.
#[derive(Clone, Copy, PartialEq, Eq, Debug, Error)]
pub enum PanelFault {
    #[error("rows and columns are 2 to 64 each")]
    Size,
    #[error("the place is off the grid")]
    Place,
    #[error("there is no such line")]
    NoLine,
    #[error("the place is outside the area")]
    OutsideArea,
    // The first such part, row by row and all counted from 1.
    #[error("a part lies beyond 100,000 micrometres either way")]
    PartBeyond {
        row: usize,
        column: usize,
        part: usize,
    },
    #[error("60,000 probes were accepted before")]
    TooManyProbes,
    #[error("a first line is not current")]
    FirstStale,
    #[error("a second line that the reading needs is not current")]
    SecondStale,
    #[error("a grid has another length than rows times columns")]
    GridLength,
    // The solver refused a part of a line.
    #[error("{}", solver_takes(.fault))]
    Solver {
        line: usize,
        part: usize,
        fault: SolveFault,
    },
    #[error("a control point lies beyond 16,000,000 either way")]
    ControlBeyond,
}

impl PanelFault {
    // The number of the refusal; by a match, since variants that hold something have no discriminants to cast.
    pub fn number(&self) -> u8
        ensures { result ≡ fault_number self.now }
    {
        match self {
            PanelFault::Size => 14,
            PanelFault::Place => 21,
            PanelFault::NoLine => 22,
            PanelFault::OutsideArea => 23,
            PanelFault::PartBeyond { .. } => 24,
            PanelFault::TooManyProbes => 25,
            PanelFault::FirstStale => 31,
            PanelFault::SecondStale => 32,
            PanelFault::GridLength => 41,
            PanelFault::Solver { .. } => 42,
            PanelFault::ControlBeyond => 43,
        }
    }
}

// What a solver takes, for a carver who did not give the line herself.
fn solver_takes(fault: &SolveFault) -> &'static str {
    match fault {
        SolveFault::Length => "the solver takes lines of 2 to 64 numbers",
        SolveFault::Output => "the solver's output has another length",
        SolveFault::Beyond(_) => "the solver takes numbers up to 5,000,000 either way",
    }
}

// A solver's fault whole, with the line and the part that it refused.
#[derive(Clone, Copy)]
pub struct SolverRefusal {
    pub line: usize,
    pub part: usize,
    pub fault: SolveFault,
}

// By hand: `from_gives` says of a `?` which fault it makes.
impl From<SolverRefusal> for PanelFault {
    ghost from_gives = { λ e r. r ≡ as_fault e };

    fn from(e: SolverRefusal) -> PanelFault {
        PanelFault::Solver {
            line: e.line,
            part: e.part,
            fault: e.fault,
        }
    }
}
