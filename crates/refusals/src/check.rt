// One check of a row.
ghost use Rattle.std.specs.Prelude.{◌≡◌};
ghost use Rattle.refusals.specs.Checks.{must as must_be};

// Passes where the test holds, and else refuses with the fault.
pub fn must<F: Drop>(test: bool, fault: F) -> Result<(), F>
    ensures { result ≡ must_be test fault }
{
    if test { Ok(()) } else { Err(fault) }
}
