//! SHA-1 digests, and their text.
ghost use Rattle.std.specs.Prelude.{◌≡◌, ◌↔◌, Ok, IsOk, IfOk, IsUtf8, length};
ghost use Rattle.std.specs.Str.{str_to_ascii_lowercase};
ghost use Rattle.hex.specs.Hex.{encode_lower, decode_sized};
ghost use Rattle.sha1.specs.Sha1 as sha;
ghost use Rattle.host_names.specs.Hex.{IsDigestText};

use arrayvec::ArrayString;
use hex::FromHex;
use sha1::Sha1;
use std::str;
use thiserror::Error;

/// A text is no digest.
#[derive(Clone, Copy, Debug, PartialEq, Eq, Error)]
#[error("a digest is 40 hexadecimal digits")]
pub struct BadDigest;

/// The SHA-1 digest (FIPS 180-4) of a file, by which the file is named. Digests are ordered by their bytes.
#[derive(Clone, Copy, Debug, PartialEq, Eq, PartialOrd, Ord)]
pub struct Digest(pub [u8; 20]);

/// The digits of 20 bytes, in lower case.
fn hex_digits(bytes: &[u8]) -> [u8; 40]
    requires { length bytes.now ≡ 20 }
    ensures text { result ≡ encode_lower bytes.now }
    ensures ascii { IsUtf8 result }
    ensures undone { decode_sized result 20 ≡ Ok bytes.now }
{
    let mut digits = [0; 40];
    hex::encode_to_slice(bytes, &mut digits).unwrap();
    digits
}

impl Digest {
    /// The digest of some bytes.
    pub fn of_bytes(bytes: &[u8]) -> Digest
        ensures { result.0 ≡ sha.sha1 bytes.now }
    {
        Digest(Sha1::digest(bytes))
    }

    /// The digest that 40 hexadecimal digits of either case spell.
    pub fn of_hex(text: &str) -> Result<Digest, BadDigest>
        ensures lawful { IsOk result ↔ IsDigestText text.now }
        ensures value { IfOk result (λ digest. decode_sized text.now 20 ≡ Ok digest.0) }
        ensures undone { IfOk result (λ digest. encode_lower digest.0 ≡ str_to_ascii_lowercase text.now) }
    {
        match <[u8; 20] as FromHex>::from_hex(text) {
            Ok(bytes) => Ok(Digest(bytes)),
            Err(_) => Err(BadDigest),
        }
    }

    /// Its 40 digits, in lower case.
    pub fn to_hex(&self) -> ArrayString<40>
        ensures text { result.bytes ≡ encode_lower self.now.0 }
        ensures undone { decode_sized result.bytes 20 ≡ Ok self.now.0 }
    {
        let bytes = self.0;
        let digits = hex_digits(&bytes);
        // SAFETY: they are hexadecimal digits, each a character of ASCII.
        let text = unsafe { str::from_utf8_unchecked(&digits) };
        ArrayString::from(text).unwrap()
    }
}
