//! The texts of entries, which are written and read.
#![tactic(auto)]

mod decode_faults;
mod decoding;
mod encoding;
mod fields;
mod listings;
mod versions;

pub use decode_faults::DecodeFault;
pub use decoding::{decode, decode_in};
pub use encoding::encode;
pub use versions::Version;
