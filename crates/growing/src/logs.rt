//! Which logs are later than others: those that have their base and begin with their entries.
use crate::Growing;
use change_log::Log;

impl Growing for Log {
    ghost use Rattle.change_log.specs.Logs.{BeginsWith};
    ghost use Rattle.growing.specs.Logs as logs;

    ghost is_later = { λ old new. BeginsWith new old };

    ghost itself = { logs.stays };

    ghost goes_on = { logs.goes_on };
}
