// A line of a grid as the code walks it: no slice, since its samples may stand apart.
ghost use Rattle.std.specs.Prelude.{◌≡◌, ◌+◌, ◌*◌, ◌<◌, ◌^◌};
ghost use Rattle.panel.specs.Lane.{on_lane};

// From a start by equal steps.
#[derive(Clone, Copy)]
pub(crate) struct Lane {
    pub(crate) start: usize,
    pub(crate) step: usize,
    pub(crate) count: usize,
}

impl Lane {
    // Where entry e stands, counted from 0.
    pub(crate) fn index(self, e: usize) -> usize
        requires { on_lane self e < 2 ^ 64 }
        ensures { result ≡ on_lane self e }
    {
        self.start + e * self.step
    }
}
