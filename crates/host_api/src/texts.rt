//! The texts of replies, as JSON (RFC 8259).
ghost use Rattle.std.specs.Prelude.{◌≡◌, ◌++◌, [], IfOk, OnOk};
ghost use Rattle.std.specs.String.{string_bytes};
ghost use Rattle.host_api.specs.DeployStates.{state_name, required_of};
ghost use Rattle.host_api.specs.Texts.{number_or_null, opened_text, uploaded_text, deploy_text, told_text};

use crate::change_lines::{ChangeLine, list_text};
use crate::digest_texts::push_digests;
use crate::items::Items;
use crate::refusal_texts::refusal_text;
use crate::refusals::Refusal;
use host_names::{Digest, SiteName};
use std::alloc::{AllocError, Global};

/// The state of a deploy.
#[derive(Drop)]
pub enum DeployState {
    /// It is open, and these of its files were not uploaded yet.
    Open { required: Items<Digest> },
    /// It was published whole, and its files are kept.
    Kept,
}

impl DeployState {
    // Its name.
    fn name(&self) -> &'static str
        ensures { result.now ≡ state_name self.now }
    {
        match self {
            DeployState::Open { .. } => "open",
            DeployState::Kept => "kept",
        }
    }

    // The digests of its files that are missing.
    fn required(&self) -> &[Digest]
        ensures { result.now ≡ required_of self.now }
    {
        match self {
            DeployState::Open { required } => required.as_slice(),
            DeployState::Kept => &[],
        }
    }
}

/// What a reply tells.
#[derive(Drop)]
pub enum Told {
    /// A deploy was opened; the entry that published it, if one did; and what was missing when it was opened.
    Opened {
        id: u64,
        published: Option<u64>,
        required: Items<Digest>,
    },
    /// A file was uploaded; and the entry that published its deploy, if one did.
    Uploaded {
        published: Option<u64>,
        digest: Digest,
    },
    /// The number of the entry that was made.
    Entered {
        number: u64,
    },
    /// A deploy: its number, its site, and its state.
    Deploy {
        id: u64,
        site: SiteName,
        state: DeployState,
    },
    /// The last entries of a site, oldest first.
    Changes(Items<ChangeLine>),
    /// The request was refused.
    Refused(Refusal),
}

// The text of a reply without its list of digests fits in this many bytes.
const ROOM: usize = 132;

// A digest of a list fits in this many bytes: its digits, the quotes and a comma.
const DIGEST_ROOM: usize = 43;

// An empty text, with room for a list of digests and for what is around it.
fn text_around(alloc: Global, digests: &[Digest]) -> Result<String, AllocError>
    ensures { IfOk result (λ text. string_bytes text ≡ []) }
{
    let room = digests
        .len()
        .saturating_mul(DIGEST_ROOM)
        .saturating_add(ROOM);
    String::with_capacity(alloc, room)
}

// Appends a number, or `null` where there is none.
fn push_number(text: &mut String, number: Option<u64>) -> Result<(), AllocError>
    ensures { OnOk result (string_bytes text.new ≡ string_bytes text.old ++ number_or_null number) }
{
    match number {
        Some(number) => write!(text, "{number}"),
        None => text.push_str("null"),
    }
}

// The text of an opened deploy.
fn opened(
    alloc: Global,
    id: u64,
    published: Option<u64>,
    required: &[Digest],
) -> Result<String, AllocError>
    ensures { IfOk result (λ text. string_bytes text ≡ opened_text id published required.now) }
{
    let mut text = text_around(alloc, required)?;
    write!(text, "{{\"id\":\"{id}\",\"published\":")?;
    push_number(&mut text, published)?;
    text.push_str(",\"required\":[")?;
    push_digests(&mut text, required)?;
    text.push_str("]}")?;
    Ok(text)
}

// The text of an uploaded file.
fn uploaded(alloc: Global, published: Option<u64>, digest: &Digest) -> Result<String, AllocError>
    ensures { IfOk result (λ text. string_bytes text ≡ uploaded_text published digest.now) }
{
    let mut text = String::with_capacity(alloc, ROOM)?;
    text.push_str("{\"published\":")?;
    push_number(&mut text, published)?;
    let sha = digest.to_hex();
    write!(text, ",\"sha\":\"{sha}\"}}")?;
    Ok(text)
}

// The text of a deploy.
fn deploy(
    alloc: Global,
    id: u64,
    site: &SiteName,
    required: &[Digest],
    state: &str,
) -> Result<String, AllocError>
    ensures { IfOk result (λ text. string_bytes text ≡ deploy_text id site.now required.now state.now) }
{
    let mut text = text_around(alloc, required)?;
    write!(text, "{{\"id\":\"{id}\",\"required\":[")?;
    push_digests(&mut text, required)?;
    write!(text, "],\"site\":\"{site}\"")?;
    write!(text, ",\"state\":\"{state}\"}}")?;
    Ok(text)
}

/// The text of a reply, as JSON.
#[tactic(auto, using(crate::proofs::DeployTexts::told_deploy))]
pub fn text(alloc: Global, told: &Told) -> Result<String, AllocError>
    ensures { IfOk result (λ text. string_bytes text ≡ told_text told.now) }
{
    match told {
        Told::Opened {
            id,
            published,
            required,
        } => opened(alloc, *id, *published, required.as_slice()),
        Told::Uploaded { published, digest } => uploaded(alloc, *published, digest),
        Told::Entered { number } => format!(in alloc; "{{\"entry\":{number}}}"),
        Told::Deploy { id, site, state } => deploy(
            alloc,
            *id,
            site,
            state.required(),
            state.name(),
        ),
        Told::Changes(lines) => list_text(alloc, lines.as_slice()),
        Told::Refused(refusal) => refusal_text(alloc, refusal),
    }
}
