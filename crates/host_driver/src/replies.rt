//! How fast values of Range are read, and boundaries are looked for.
mod files;
pub(crate) mod measurements;
mod values;

/// What can be measured of that, a line each.
pub(crate) const LIST: &str =
    "commas BYTES      megabytes a second at which a value of Range is read that has so many commas
digits BYTES      the same of a value whose first position has so many digits
sixteens BYTES    the same of values of 16 ranges each, which have so many bytes together
random BYTES      megabytes a second at which a boundary is looked for in a file of so many random bytes
beginnings BYTES  the same of a file that is full of how a boundary begins";
