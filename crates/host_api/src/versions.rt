//! The versions of a site.
use host_names::AliasName;

/// Which version of a site is read.
#[derive(Drop)]
pub enum Version {
    /// The one that the site serves now.
    Live,
    /// The deploy that the alias names.
    Alias(AliasName),
    /// The kept deploy with this number; 0, which names nothing, if the target writes no number that an entry can have.
    Kept(u64),
}
