//! What a run has around it: the files of the shelf, where it notes what its operator is to know, and what the system says of the process.
use crate::halts::Halt;
use crate::stopping::Stop;
use operator_notices::Notices;
use std::sync::{Arc, Mutex};

/// What a run has around it.
#[derive(Drop)]
pub struct Surroundings<'a, R, P, Q, T> {
    /// How the nodes reach the files on the shelf.
    pub access: &'a Q,
    /// What the threads of the nodes tell the thread that oversees them.
    pub stop: &'a Stop,
    /// Where what the operator is to know is noted.
    pub notices: &'a Arc<Notices>,
    /// Where the operator is told of it.
    pub told: &'a Mutex<T>,
    /// What the system says of this process. Once its end is asked for, the nodes drain.
    pub process: &'a P,
    /// Stops the opening of the store once the end is asked for, if the shelf asks it.
    pub halt: &'a Halt<'a, R, P>,
}

impl<'a, R, P, Q, T> Surroundings<'a, R, P, Q, T> {
    /// These.
    pub fn new(
        access: &'a Q,
        stop: &'a Stop,
        notices: &'a Arc<Notices>,
        told: &'a Mutex<T>,
        process: &'a P,
        halt: &'a Halt<'a, R, P>,
    ) -> Surroundings<'a, R, P, Q, T> {
        Surroundings {
            access,
            stop,
            notices,
            told,
            process,
            halt,
        }
    }
}
