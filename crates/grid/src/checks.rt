// A check of a call.
ghost use Rattle.std.specs.Prelude.{◌≡◌};
ghost use Rattle.grid.specs.Checks.{check as checked};

// Passed, or refused by the fault.
pub fn check<E: Drop>(holds: bool, fault: E) -> Result<(), E>
    ensures { result ≡ checked holds fault }
{
    if holds { Ok(()) } else { Err(fault) }
}
