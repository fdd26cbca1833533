//! What is done once the program is asked to end.
ghost use Rattle.std.specs.Prelude.{◌≡◌, ◌+◌, ◌<◌, ◌≤◌, ◌^◌, ◌-◌, None, Some, max, min};

/// How many milliseconds what goes on has once the program is asked to end.
const DRAIN: u64 = 10_000;

/// How many kinds of signals have asked for the end of the program, as far as was seen.
#[derive(Drop)]
pub struct EndsSeen {
    kinds: u32,
}

impl EndsSeen {
    /// None was seen.
    pub fn new() -> EndsSeen
        ensures { result.kinds ≡ 0 }
    {
        EndsSeen { kinds: 0 }
    }

    /// So many kinds have asked by now, a time in milliseconds. Answers until when the nodes drain, if they are told anew: for ten seconds once one has asked.
    /// Once a second one asks, be it at the same look, they end at once.
    pub fn look(&mut self, kinds: u32, now: u64) -> Option<u64>
        ensures seen { self.new.kinds ≡ max self.old.kinds kinds }
        ensures same { kinds ≤ self.old.kinds → result ≡ None }
        ensures first { self.old.kinds ≡ 0 → kinds ≡ 1 → result ≡ Some (min (now + 10000) (2 ^ 64 - 1)) }
        ensures second { self.old.kinds < kinds → 2 ≤ kinds → result ≡ Some 0 }
    {
        if kinds <= self.kinds {
            return None;
        }
        self.kinds = kinds;
        if kinds == 1 {
            Some(now.saturating_add(DRAIN))
        } else {
            Some(0)
        }
    }
}
