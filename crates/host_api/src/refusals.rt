//! Why a request is refused.
ghost use Rattle.std.specs.Prelude.{◌≡◌, ◌≤◌, length};
ghost use Rattle.host_api.specs.Refusals.{name_of, shown_of_change, shown_of_head, status_of};

use crate::resources::Resource;
use host_names::PathError;
use http::StatusCode;
use site_change::{ChangeError, ChangeRefusal};
use std::alloc::AllocError;

/// Why a request is refused by its head alone.
#[derive(Clone, Copy, Debug, PartialEq, Eq)]
pub enum HeadRefusal {
    /// The head is too long, or has too many fields.
    HeadTooLarge,
    /// The head breaks the grammar, or is one that the host doesn't answer.
    BadHead,
    /// The body has a transfer coding.
    CodingRefused,
    /// The head does not say how long the body is.
    LengthBad,
    /// The body is too large.
    BodyTooLarge,
}

/// Why a request is refused. A reply names the reason.
#[derive(Debug, Drop, PartialEq, Eq)]
pub enum Refusal {
    /// A change, or the undo of one, is refused; or what a request reads or uploads to isn't there.
    Change(ChangeRefusal),
    /// The text is not the name of a site or an alias.
    BadName,
    /// The text is not a path.
    BadPath,
    /// The text is not a digest.
    BadDigest,
    /// The body is not what the route takes.
    BadBody,
    /// The deploy does not list the path, or removes its file.
    NotListed,
    /// The deploy lists another digest at the path.
    WrongDigest,
    /// The file has more bytes than a file may have.
    TooLarge,
    /// The store doesn't have all chunks of the file.
    Missing,
    /// The bytes that the store has for the file are not the file's.
    Damaged,
    /// The device of the store failed.
    Device,
    /// There was no memory for the request.
    OutOfMemory,
    /// The device of the journal failed at an earlier request. Nothing is changed until the journal is opened again.
    Broken,
    /// No route fits the target.
    NoRoute,
    /// The resource does not have the method.
    BadMethod(Resource),
    /// The head of the request is refused.
    Head(HeadRefusal),
    /// The file, which has this many bytes, has none of the range.
    NotSatisfiable(u64),
}

// What a reply says of a refused change: its name, and the status code.
fn shown_of_change(reason: &ChangeRefusal) -> (&'static str, StatusCode)
    ensures name { result.0.now ≡ (shown_of_change reason.now).0 }
    ensures short { length result.0.now ≤ 14 }
    ensures status { result.1 ≡ (shown_of_change reason.now).1 }
{
    match reason {
        ChangeRefusal::HistoryFull => ("HistoryFull", StatusCode::INSUFFICIENT_STORAGE),
        ChangeRefusal::TooManyFiles => ("TooManyFiles", StatusCode::PAYLOAD_TOO_LARGE),
        ChangeRefusal::NoSuchDraft => ("NoSuchDraft", StatusCode::NOT_FOUND),
        ChangeRefusal::NotComplete(_) => ("NotComplete", StatusCode::CONFLICT),
        ChangeRefusal::NoSuchDeploy => ("NoSuchDeploy", StatusCode::NOT_FOUND),
        ChangeRefusal::NoSuchFile => ("NoSuchFile", StatusCode::NOT_FOUND),
        ChangeRefusal::PathTaken => ("PathTaken", StatusCode::CONFLICT),
        ChangeRefusal::SamePath => ("SamePath", StatusCode::CONFLICT),
        ChangeRefusal::NestedFolder => ("NestedFolder", StatusCode::CONFLICT),
        ChangeRefusal::PathTooLong => ("PathTooLong", StatusCode::CONFLICT),
        ChangeRefusal::NoSuchAlias => ("NoSuchAlias", StatusCode::NOT_FOUND),
        ChangeRefusal::DeployInUse(_) => ("DeployInUse", StatusCode::CONFLICT),
        ChangeRefusal::NoSuchChange => ("NoSuchChange", StatusCode::NOT_FOUND),
        ChangeRefusal::NotAChange => ("NotAChange", StatusCode::CONFLICT),
        ChangeRefusal::AlreadyUndone => ("AlreadyUndone", StatusCode::CONFLICT),
        ChangeRefusal::Clash { .. } => ("Clash", StatusCode::CONFLICT),
    }
}

// The same of a refused head.
fn shown_of_head(reason: HeadRefusal) -> (&'static str, StatusCode)
    ensures name { result.0.now ≡ (shown_of_head reason).0 }
    ensures short { length result.0.now ≤ 14 }
    ensures status { result.1 ≡ (shown_of_head reason).1 }
{
    match reason {
        HeadRefusal::HeadTooLarge => {
            ("HeadTooLarge", StatusCode::REQUEST_HEADER_FIELDS_TOO_LARGE)
        }
        HeadRefusal::BadHead => ("BadHead", StatusCode::BAD_REQUEST),
        HeadRefusal::CodingRefused => ("CodingRefused", StatusCode::NOT_IMPLEMENTED),
        HeadRefusal::LengthBad => ("LengthBad", StatusCode::BAD_REQUEST),
        HeadRefusal::BodyTooLarge => ("BodyTooLarge", StatusCode::PAYLOAD_TOO_LARGE),
    }
}

impl Refusal {
    // What a reply says of a refusal: its name, and the status code.
    fn shown(&self) -> (&'static str, StatusCode)
        ensures name { result.0.now ≡ name_of self.now }
        ensures short { length result.0.now ≤ 14 }
        ensures status { result.1 ≡ status_of self.now }
    {
        match self {
            Refusal::Change(reason) => shown_of_change(reason),
            Refusal::BadName => ("BadName", StatusCode::BAD_REQUEST),
            Refusal::BadPath => ("BadPath", StatusCode::BAD_REQUEST),
            Refusal::BadDigest => ("BadDigest", StatusCode::BAD_REQUEST),
            Refusal::BadBody => ("BadBody", StatusCode::BAD_REQUEST),
            Refusal::NotListed => ("NotListed", StatusCode::NOT_FOUND),
            Refusal::WrongDigest => ("WrongDigest", StatusCode::UNPROCESSABLE_ENTITY),
            Refusal::TooLarge => ("TooLarge", StatusCode::PAYLOAD_TOO_LARGE),
            Refusal::Missing => ("Missing", StatusCode::SERVICE_UNAVAILABLE),
            Refusal::Damaged => ("Damaged", StatusCode::SERVICE_UNAVAILABLE),
            Refusal::Device => ("Device", StatusCode::SERVICE_UNAVAILABLE),
            Refusal::OutOfMemory => ("OutOfMemory", StatusCode::SERVICE_UNAVAILABLE),
            Refusal::Broken => ("Broken", StatusCode::SERVICE_UNAVAILABLE),
            Refusal::NoRoute => ("NoRoute", StatusCode::NOT_FOUND),
            Refusal::BadMethod(_) => ("BadMethod", StatusCode::METHOD_NOT_ALLOWED),
            Refusal::Head(reason) => shown_of_head(*reason),
            Refusal::NotSatisfiable(_) => ("NotSatisfiable", StatusCode::RANGE_NOT_SATISFIABLE),
        }
    }

    /// The name that a reply gives to the refusal.
    pub fn name(&self) -> &'static str
        ensures value { result.now ≡ name_of self.now }
        ensures short { length result.now ≤ 14 }
    {
        self.shown().0
    }

    /// The status code of the reply (RFC 9110, section 15).
    pub fn status(&self) -> StatusCode
        ensures { result ≡ status_of self.now }
    {
        self.shown().1
    }
}

impl From<AllocError> for Refusal {
    ghost use Rattle.std.specs.Prelude.{◌≡◌};
    ghost use Rattle.host_api.specs.declared.refusals.Refusal.TheVariants.{OutOfMemory};

    ghost from_gives = { λ _ reason. reason ≡ OutOfMemory };

    fn from(_error: AllocError) -> Refusal {
        Refusal::OutOfMemory
    }
}

impl From<ChangeRefusal> for Refusal {
    ghost use Rattle.std.specs.Prelude.{◌≡◌};
    ghost use Rattle.host_api.specs.declared.refusals.Refusal.TheVariants.{Change};

    ghost from_gives = { λ reason refusal. refusal ≡ Change reason };

    fn from(reason: ChangeRefusal) -> Refusal {
        Refusal::Change(reason)
    }
}

impl From<ChangeError> for Refusal {
    ghost use Rattle.std.specs.Prelude.{◌≡◌};
    ghost use Rattle.host_api.specs.Refusals.{of_change};

    ghost from_gives = { λ error reason. reason ≡ of_change error };

    fn from(error: ChangeError) -> Refusal {
        match error {
            ChangeError::Refused(reason) => Refusal::Change(reason),
            ChangeError::OutOfMemory => Refusal::OutOfMemory,
        }
    }
}

impl From<PathError> for Refusal {
    ghost use Rattle.std.specs.Prelude.{◌≡◌};
    ghost use Rattle.host_api.specs.Refusals.{of_path};

    ghost from_gives = { λ error reason. reason ≡ of_path error };

    fn from(error: PathError) -> Refusal {
        match error {
            PathError::BadPath => Refusal::BadPath,
            PathError::OutOfMemory => Refusal::OutOfMemory,
        }
    }
}
