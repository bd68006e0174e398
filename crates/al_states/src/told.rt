//! An answer with the front at which it was given.
use al_answers::Answer;

/// An answer, and the front at which it was given.
#[derive(Debug, Drop)]
pub struct Told {
    pub front: u64,
    pub answer: Answer,
}
