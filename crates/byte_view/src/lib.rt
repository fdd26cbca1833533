//! Files in pieces of 64 KiB: chunks, which are checked by their names, and slices of them, which are borrowed and never copied.
#![tactic(auto)]

mod blob_builders;
mod blob_infos;
mod body_parts;
mod chunks;
mod holds;
pub mod laws;
mod marks;
mod pieces;
mod uploads;
mod views;

pub use blob_builders::{BlobBuilder, JoinFault, MAX_SIZE};
pub use blob_infos::{BlobInfo, PIECE_SIZE};
pub use body_parts::{BodyParts, FEW, Part, bytes_if, next_if, rest_if_few};
pub use chunks::{Chunk, WrongName};
pub use holds::{Hold, WrongLength};
pub use marks::{mark, occurs};
pub use pieces::Pieces;
pub use uploads::Uploads;
pub use views::View;
