//! What comes of a run.
ghost use Rattle.std.specs.Prelude.{◌≡◌};
ghost use Rattle.runs.specs.declared.outcome.RunError.TheVariants.{Refused, NoMemory};

use manager::{Answer, Manager};
use meaning::Refusal;
use std::alloc::AllocError;

/// What a run leaves: the manager, and the answers to the calls in their order.
#[derive(Drop)]
pub struct Outcome {
    pub manager: Manager,
    pub answers: Vec<Answer>,
}

/// Why no call of a run was carried out.
#[derive(Clone, Copy, PartialEq, Eq, Debug)]
pub enum RunError {
    /// No manager could be made of what the host lent.
    Refused(Refusal),
    /// There is no memory for the answers.
    NoMemory,
}

impl From<Refusal> for RunError {
    ghost from_gives = { λ refusal error. error ≡ Refused refusal };

    fn from(refusal: Refusal) -> RunError {
        RunError::Refused(refusal)
    }
}

impl From<AllocError> for RunError {
    ghost from_gives = { λ _ error. error ≡ NoMemory };

    fn from(_: AllocError) -> RunError {
        RunError::NoMemory
    }
}
