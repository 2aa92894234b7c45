//! What derives further clauses in a solver's kernel.
ghost use Rattle.chains.specs.Growth.{Grows};

use clause_pool::Kernel;
use pb_base::Memory;
use propagate::Engine;

/// Derives clauses in a kernel, by what the trail of an engine tells over the first clauses of it.
pub trait Deriver {
    /// The kernel may only grow.
    fn derive(&mut self, kernel: &mut Kernel, engine: &Engine) -> Result<(), Memory>
        ensures { Grows kernel.old kernel.new };
}
