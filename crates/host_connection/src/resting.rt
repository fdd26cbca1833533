//! A connection that rests is known by the number of its next request. Any other that rests can go on as it, so its room needn't be kept.
ghost use Rattle.std.specs.Prelude.{◌≡◌, IfSome, MatchBool, is_some};
ghost use Rattle.host_connection.specs.Resting.{IsResting, number_before, resting_number};

use crate::phases::Phase;
use crate::steps::Connection;

// The number of a request of which so many bytes are there, if none is.
fn number_before(buffered: usize, number: u64) -> Option<u64>
    ensures { result ≡ number_before buffered number }
{
    match buffered {
        0 => Some(number),
        _ => None,
    }
}

impl Connection {
    /// The number of the request that it is before, if it rests: nothing of that was read, and nothing of a reply is left. It takes no memory.
    pub fn resting(&self) -> Option<u64>
        ensures is { result ≡ resting_number self.now }
        ensures rests { IfSome result (λ number. IsResting number self.now) }
    {
        match &self.phase {
            Phase::Head => number_before(self.wire.bytes().len(), self.number),
            _ => None,
        }
    }

    /// If this one rests, it goes on as one that rests before the request of this number, and the answer is true. Else nothing changes.
    pub fn resume(&mut self, number: u64) -> bool
        ensures rested { result ≡ is_some (resting_number self.old) }
        ensures goes { MatchBool result (IsResting number self.new) (self.new ≡ self.old) }
    {
        if self.resting().is_none() {
            return false;
        }
        self.number = number;
        true
    }
}
