//! What the system says of this process.
ghost use Rattle.std.specs.Prelude.{◌≤◌};

use node_process::Process;
use std::fs::{self, File};
use std::os::unix::fs::FileExt;

/// Where the system tells the limits of this process, and what it waits for.
const LIMITS: &str = "/proc/self/limits";

const STATUS: &str = "/proc/self/status";

/// How the lines begin that are read there: the limit of descriptors, and the set of signals that have come and are blocked, as a hexadecimal number.
const DESCRIPTORS: &str = "Max open files";

const SIGNALS: &str = "ShdPnd:";

/// The limit if it can't be read, which is the system's usual one.
const USUAL: u64 = 1_024;

/// The numbers of the signals that ask for the end of a program: SIGINT and SIGTERM (signal(7)).
const ENDS: [u32; 2] = [2, 15];

/// How many bytes of the status are read. The line of the signals is among them, unless the process is in a thousand groups.
const STATUS_BYTES: usize = 8_192;

/// This process, as the system shows it under /proc.
#[derive(Drop)]
pub(crate) struct ThisProcess<'a> {
    rt: &'a HostRuntime,
    /// Stays open, since it is looked at though no descriptor may be left then.
    status: Option<File>,
}

impl<'a> ThisProcess<'a> {
    /// This process; its status takes a descriptor.
    pub(crate) fn new(rt: &'a HostRuntime) -> ThisProcess<'a> {
        ThisProcess {
            rt,
            status: File::open(rt, STATUS).ok(),
        }
    }

    /// The limit of descriptors.
    fn limit(&self) -> Option<u64> {
        let text = fs::read_to_string(self.rt, LIMITS).ok()?;
        number_in(text.as_str(), DESCRIPTORS, 10)
    }

    /// The set of signals that wait.
    fn pending(&self) -> Option<u64> {
        let file = self.status.as_ref()?;
        let mut bytes = [0; STATUS_BYTES];
        let length = file.read_at(&mut bytes, 0).ok()?;
        number_in(str::from_utf8(&bytes[..length]).ok()?, SIGNALS, 16)
    }
}

/// The first word behind the beginning of a line of a text, read as a number of this radix.
fn number_in(text: &str, beginning: &str, radix: u32) -> Option<u64>
    requires { (2 ≤ radix) × (radix ≤ 36) }
{
    for line in text.lines() {
        if let Some(rest) = line.strip_prefix(beginning) {
            let word = rest.split_whitespace().next()?;
            return u64::from_str_radix(word, radix).ok();
        }
    }
    None
}

impl Process for ThisProcess<'_> {
    fn descriptors(&self) -> u64 {
        self.limit().unwrap_or(USUAL)
    }

    fn ends_asked(&self) -> u32 {
        let pending = self.pending().unwrap_or(0);
        let mut asked = 0_u32;
        for signal in ENDS {
            if pending >> (signal - 1) & 1 == 1 {
                asked = asked.saturating_add(1);
            }
        }
        asked
    }
}
