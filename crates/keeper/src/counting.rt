//! What a keeper answers by what its store came to.
ghost use Rattle.std.specs.Prelude.{◌≡◌};
ghost use Rattle.keeper.specs.Causes.{HasCause};
ghost use Rattle.keeper.specs.Counting.{answer_of, faults_after, fallible};

use pb_base::Fail;
use pb_outside::{FaultCount, OutError};

/// What a call of a keeper answers where its store came to `done`, for a keeper whose store may fail at any call. Want of
/// memory is told as such and counts nothing, and every other failure counts one fault.
pub fn counted<T: Drop, E: Drop>(
    faults: &mut FaultCount,
    done: Result<T, Fail<E>>,
) -> Result<T, OutError>
    ensures answer { result ≡ answer_of done }
    ensures faults { faults.new ≡ faults_after done faults.old }
    ensures count { HasCause result (fallible faults.old) (fallible faults.new) }
{
    match done {
        Ok(answer) => Ok(answer),
        Err(Fail::Memory) => Err(OutError::Memory),
        Err(Fail::Refused(_)) => {
            faults.raise();
            Err(OutError::Failed)
        }
    }
}
