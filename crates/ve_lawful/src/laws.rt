// Laws of the verdict as a whole.
ghost use Rattle.ve_lawful.specs.Uncited.{StepReadsNoValues, AfterReadsNoValues, VerdictReadsNoValues};

/// The law reads no value that an item cites: over every list of values it says the same.
pub fn values_are_not_read()
    ensures step { StepReadsNoValues }
    ensures after { AfterReadsNoValues }
    ensures verdict { VerdictReadsNoValues }
{}
