//! The numbers of deploys and changes, as a target or a body writes them.
ghost use Rattle.std.specs.Prelude.{◌≡◌};
ghost use Rattle.host_api.specs.Numbers as spec;

/// The greatest number that an entry can have.
pub(crate) const GREATEST_NUMBER: u64 = 1_000_000;

/// The number that the text writes, or 0, which no entry has.
#[tactic(auto, using(crate::proofs::NumberTexts::number_of_parsed))]
pub(crate) fn number_of(text: &str) -> u64
    ensures { result ≡ spec.number_of text.now }
{
    let Some(b'1'..=b'9') = text.as_bytes().first() else {
        return 0;
    };
    let number = text.parse::<u64>().unwrap_or(0);
    if number <= GREATEST_NUMBER { number } else { 0 }
}
