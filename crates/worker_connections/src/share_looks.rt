//! What is looked for among what workers share.
ghost use Rattle.std.specs.Prelude.{◌≡◌};
ghost use Rattle.connection_rules.specs.Least.{least_of};
ghost use Rattle.worker_connections.specs.Shares as spec;

use crate::shares::{Share, Want};
use connection_rules::Least;

/// The place of the worker whose connections have the fewest places, with their number.
pub(crate) fn fewest(workers: &[Share]) -> Option<(usize, u64)>
    ensures { result ≡ least_of (spec.taken_from 0 workers.now) }
{
    let mut least = Least::new();
    'looks: for at in 0..workers.len() {
        least.look(at, workers[at].taken);
    }
    least.found()
}

/// The place of the worker that said the least number for a want, with that number.
pub(crate) fn least_said(workers: &[Share], want: Want) -> Option<(usize, u64)>
    ensures { result ≡ least_of (spec.said_from want 0 workers.now) }
{
    let mut least = Least::new();
    'looks: for at in 0..workers.len() {
        if let Some(number) = workers[at].said(want) {
            least.look(at, number);
        }
    }
    least.found()
}

/// How many places are taken.
pub(crate) fn taken(workers: &[Share]) -> u128
    ensures { result ≡ spec.taken workers.now }
{
    let mut sum = 0;
    'sums: for at in 0..workers.len() {
        sum += workers[at].taken as u128;
    }
    sum
}
