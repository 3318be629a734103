// A law of what a soak sums up, for each machine.
ghost use Rattle.ve_run.specs.Laws.{SoakHashesTheOutput};

/// The digest of a soak is that of the output which a run has for the script that `make` writes.
#[tactic(auto, using(crate::proofs::SoakLaws::soak_hashes_the_output))]
pub fn soak_hashes_the_output<W>()
    ensures { SoakHashesTheOutput W }
{}
