//! What somebody has seen of a stock's files.
ghost use Rattle.std.specs.Prelude.{◌≡◌};
ghost use Rattle.std.specs.FinMap as map;
ghost use Rattle.site_change.specs.Changes.{IsWithin};

use crate::stocks::{KnownFiles, Stock, Tie};
use seen_lists::ListName;
use std::marker::Model;

/// What somebody has seen of a stock's files, who may have seen nothing of them yet. It takes no memory, and can be made again. Contracts see the bytes of
/// each file.
#[derive(Drop)]
pub struct SeenFiles<K: ListName<KnownFiles>> {
    tie: Option<Tie<K>>,
}

impl<K: ListName<KnownFiles>> Model for SeenFiles<K> {
    ghost use Rattle.std.specs.Prelude.{unwrap_or};
    ghost use Rattle.std.specs.FinMap as map;
    ghost use Rattle.byte_view.specs.Contents.{Contents};
    ghost use Rattle.blob_store.specs.contracts.blob_indexes.BlobIndex as known;

    ghost Value = { Contents };

    ghost coded = { known.the_row.coded };

    ghost view = { λ s. unwrap_or s.tie map.empty };
}

impl<K: ListName<KnownFiles>> SeenFiles<K> {
    /// Nothing was seen.
    pub fn none() -> SeenFiles<K>
        ensures { result ≡ map.empty }
    {
        SeenFiles { tie: None }
    }

    /// What is known by this.
    pub fn of(tie: Tie<K>) -> SeenFiles<K>
        ensures { result ≡ tie }
    {
        SeenFiles { tie: Some(tie) }
    }

    /// A copy.
    pub fn again(&self) -> SeenFiles<K>
        ensures { result ≡ self.now }
    {
        match &self.tie {
            Some(tie) => SeenFiles::of(tie.again()),
            None => SeenFiles::none(),
        }
    }

    /// Learns what another one has seen.
    pub fn learn(&mut self, other: &SeenFiles<K>)
        ensures kept { IsWithin self.old self.new }
        ensures learnt { IsWithin other.now self.new }
    {
        let Some(theirs) = &other.tie else {
            return;
        };
        match &mut self.tie {
            Some(mine) => mine.learn(theirs),
            None => self.tie = Some(theirs.again()),
        }
    }
}

impl<K: ListName<KnownFiles>> Stock<K> {
    /// Shows somebody all files so far. What was seen before is among them.
    pub fn show(&mut self, seen: &mut SeenFiles<K>)
        ensures same { self.new ≡ self.old }
        ensures told { seen.new ≡ self.old }
        ensures more { IsWithin seen.old seen.new }
    {
        match &mut seen.tie {
            Some(tie) => self.tell(tie),
            None => seen.tie = Some(self.tie()),
        }
    }
}
