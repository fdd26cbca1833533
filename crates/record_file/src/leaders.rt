//! Which of two slots is read.
ghost use Rattle.std.specs.Prelude.{◌≡◌, ◌≢◌, IfErr, IfOk, None, Some};
ghost use Rattle.record_file.specs.declared.faults.OpenFault.TheVariants.{BadHeader};
ghost use Rattle.record_file.specs.Pairs.{Leads, is_turned};

use crate::faults::OpenFault;
use crate::headers::Version;

/// The slot that is read, and the version of its file; or neither.
#[derive(Clone, Copy)]
pub enum Leader {
    First(Version),
    Second(Version),
    Neither,
}

/// Which of two slots is read, by the versions of their files, if these are in use: the one that has the greater generation.
pub(crate) fn choose(one: Option<Version>, other: Option<Version>) -> Result<Leader, OpenFault>
    ensures leads { IfOk result (λ leader. Leads leader one other) }
    ensures fault { IfErr result (λ fault. fault ≡ BadHeader) }
    ensures same { IfErr result (λ _. (one ≡ other) × (one ≢ None)) }
{
    match (one, other) {
        (None, None) => Ok(Leader::Neither),
        (Some(version), None) => Ok(Leader::First(version)),
        (None, Some(version)) => Ok(Leader::Second(version)),
        (Some(one), Some(other)) => greater(one, other),
    }
}

/// Which of two slots in use is read.
fn greater(one: Version, other: Version) -> Result<Leader, OpenFault>
    ensures leads { IfOk result (λ leader. Leads leader (Some one) (Some other)) }
    ensures fault { IfErr result (λ fault. fault ≡ BadHeader) }
    ensures same { IfErr result (λ _. one ≡ other) }
{
    if one.generation() == other.generation() {
        return Err(OpenFault::BadHeader);
    }
    if one.generation() > other.generation() {
        return Ok(Leader::First(one));
    }
    Ok(Leader::Second(other))
}

impl Leader {
    /// Whether the second slot is read once both are open: a file of version 1 is brought over into the other slot, and a file without records is
    /// made in the second one.
    pub(crate) fn is_turned(self) -> bool
        ensures { result ≡ is_turned self }
    {
        match self {
            Leader::First(Version::Old) | Leader::Second(Version::Current) | Leader::Neither =>
                true,
            Leader::First(Version::Current) | Leader::Second(Version::Old) => false,
        }
    }
}
