//! Whether a guest may leave a request for later.
ghost use Rattle.std.specs.Prelude.{◌≡◌, true, ⊤};

/// Whether a guest may leave a request for later: its type says so.
pub trait Haste {
    // What holds where it may leave one.
    ghost postpones: { Type 0 };

    /// Whether it may leave one.
    fn may_leave(&self) -> bool
        ensures { result ≡ true → postpones };
}

/// A guest that never waits. It leaves a request for later whose answer may take a wait.
#[derive(Drop)]
pub struct Quick;

impl Haste for Quick {
    ghost postpones = { ⊤ };

    fn may_leave(&self) -> bool {
        true
    }
}

/// A guest that may wait. It answers each request that it is asked.
#[derive(Drop)]
pub struct Patient;

impl Haste for Patient {
    ghost postpones = { ⊥ };

    fn may_leave(&self) -> bool {
        false
    }
}
