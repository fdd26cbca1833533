//! A file of records, each a body after a gate, in one of two slots: they are opened, the one that is read is mended and put to, and a file of the
//! version before is brought over into the other one. It knows nothing of what its bodies mean.
#![tactic(auto)]

mod bodies;
mod faults;
mod filling;
mod finishing;
mod frames;
mod headers;
mod leaders;
mod losses;
mod mending;
mod migrations;
mod openings;
mod pairs;
mod positions;
mod read_ahead;
mod records;
mod remnants;
mod slots;
mod surveys;
mod synced;
mod walks;

pub use bodies::{Bodies, BodyFault};
pub use faults::OpenFault;
pub use frames::framed_body;
pub use headers::is_old_header;
pub use losses::{Looked, Loss, Losses, look_ahead};
pub use pairs::{Opened, Opening, open_ahead};
pub use positions::Position;
pub use records::{PutFault, Records};
pub use slots::Slots;
