//! The paths under which peers ask each other for chunks.
ghost use Rattle.std.specs.Prelude.{◌≡◌, IfNone, IfSome};
ghost use Rattle.host_names.specs.declared.digests.Digest.{Digest};
ghost use Rattle.peer_link.specs.Paths as spec;
ghost use Rattle.peer_link.specs.Paths.{IsPathOf};

use arrayvec::ArrayString;
use host_names::Digest;

/// What each such path begins with.
const PATH_START: &str = "/_groupcache/chunks/";

/// The path of a chunk, of 60 bytes. It takes no memory.
pub fn chunk_path(key: &Digest) -> ArrayString<60>
    ensures { result.bytes ≡ spec.chunk_path key.now }
{
    let mut path = ArrayString::new();
    path.push_str(PATH_START);
    path.push_str(key.to_hex().as_str());
    path
}

/// The name of the chunk whose path it is, if it is one of a chunk.
pub fn key_of_path(path: &str) -> Option<Digest>
    ensures some { IfSome result (IsPathOf path.now) }
    ensures none { IfNone result ((key : Digest) → ¬ (IsPathOf path.now key)) }
{
    match path.strip_prefix(PATH_START) {
        Some(digits) => Digest::of_hex(digits).ok(),
        None => None,
    }
}
