//! The digests in the texts of replies.
ghost use Rattle.std.specs.Prelude.{◌≡◌, ◌++◌, OnOk, codes};
ghost use Rattle.std.specs.List.{flat_map};
ghost use Rattle.std.specs.String.{string_bytes};
ghost use Rattle.hex.specs.Hex.{encode_lower};
ghost use Rattle.host_api.specs.Texts.{quoted, digest_list};

use host_names::Digest;
use std::alloc::AllocError;

// Appends a digest, in quotes.
fn push_digest(text: &mut String, digest: &Digest) -> Result<(), AllocError>
    ensures { OnOk result (string_bytes text.new ≡ string_bytes text.old ++ quoted (encode_lower digest.now.0)) }
{
    text.push_str("\"")?;
    text.push_str(digest.to_hex().as_str())?;
    text.push_str("\"")
}

// Appends digests, each after a comma.
fn push_others(text: &mut String, digests: &[Digest]) -> Result<(), AllocError>
    ensures { OnOk result (string_bytes text.new ≡ string_bytes text.old ++ flat_map (λ d. codes "," ++ quoted (encode_lower d.0)) digests.now) }
{
    for digest in digests {
        text.push_str(",")?;
        push_digest(text, digest)?;
    }
    Ok(())
}

/// Appends digests, with a comma between each two.
pub(crate) fn push_digests(text: &mut String, digests: &[Digest]) -> Result<(), AllocError>
    ensures { OnOk result (string_bytes text.new ≡ string_bytes text.old ++ digest_list digests.now) }
{
    let Some((first, others)) = digests.split_first() else {
        return Ok(());
    };
    push_digest(text, first)?;
    push_others(text, others)
}
