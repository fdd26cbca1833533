//! How long a connection may take.
ghost use Rattle.std.specs.Prelude.{◌≡◌, min};
ghost use Rattle.connection_rules.specs.Paces as spec;

/// How many seconds a head has from its first byte on.
const HEAD_SECONDS: u64 = 10;

/// How many seconds a connection may be idle.
const IDLE_SECONDS: u64 = 15;

/// How many seconds each 60 KiB of a body have: a client that sends less than a kilobyte a second is as good as silent.
const TRANSFER_SECONDS: u64 = 60;

/// How many seconds each 60 KiB of a reply have. The system holds up to 256 KiB that the client hasn't taken, which count as moved. So a client that takes
/// 60 KiB in each 60 seconds may leave the reply where it is for four and a half minutes.
const REPLY_SECONDS: u64 = 360;

/// How many seconds a connection may take to close.
const CLOSING_SECONDS: u64 = 5;

/// How many seconds a body may wait for room before another one goes. It is also how long a span of time is: what moved in this one and in the one before is
/// of late.
const WAIT_SECONDS: u64 = 10;

/// How many seconds a connection counts as new.
const NEW_SECONDS: u64 = 1;

/// The longest second that a test may set, in milliseconds.
const LONGEST_SECOND: u64 = 1_000;

/// How long a connection may take, in milliseconds.
#[derive(Clone, Copy, Debug, PartialEq, Eq)]
pub struct Limits {
    /// A head, from its first byte on.
    pub head: u64,
    /// Idle, between two requests or before the first.
    pub idle: u64,
    /// Each 60 KiB of a body.
    pub transfer: u64,
    /// Each 60 KiB of a reply.
    pub reply: u64,
    /// The close of a connection that is over, while its client still sends.
    pub closing: u64,
    /// How often the connections are looked through.
    pub sweep: u64,
    /// How long a body may wait for room before another one goes.
    pub wait: u64,
    /// How long a connection counts as new.
    pub fresh: u64,
}

impl Limits {
    /// The limits where a second has so many milliseconds; tests shorten it, and it is no longer than a second.
    pub fn with_second(milliseconds: u64) -> Limits
        ensures { result ≡ spec.limits_of (min milliseconds 1000) }
    {
        let second = milliseconds.min(LONGEST_SECOND);
        Limits {
            head: HEAD_SECONDS * second,
            idle: IDLE_SECONDS * second,
            transfer: TRANSFER_SECONDS * second,
            reply: REPLY_SECONDS * second,
            closing: CLOSING_SECONDS * second,
            sweep: second,
            wait: WAIT_SECONDS * second,
            fresh: NEW_SECONDS * second,
        }
    }
}
