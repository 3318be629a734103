// Laws of every handle.
ghost use denote.Param.Send.{IsSend};
ghost use Rattle.vemodel_c.specs.contracts.handle.Handle.{the_row};

/// A handle holds nothing that is one thread's own, so a program may hand it on from thread to
/// thread.
pub fn handles_cross()
    ensures { IsSend the_row }
{}
