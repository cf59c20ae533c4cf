//! The magic and the version in front of a file.
ghost use Rattle.std.specs.Prelude.{◌≡◌};
ghost use Rattle.mvo_format.specs.Found.{FindsAs, header_found};

use crate::format::{Format, format_up_to};
use mvo_bytes::u32_at;
use mvo_types::Refusal;

/// The value of a gate that is open. Every other value is closed.
pub const OPEN: u8 = 0xa5;

/// How many bytes the magic and the version have.
pub const HEADER_LEN: usize = 8;

/// The format of the version in front, which is at most another version, and what stands behind.
/// The magic is looked at before the version.
///
/// Refused: Corrupt with the file where the magic is another or either is cut short, then
/// BadVersion where the version is none up to that one.
#[tactic(auto, unfolding(crate::specs::Found::header_found, crate::specs::Found::header_at))]
pub fn behind_header(
    file: u16,
    magic: u32,
    upto: u32,
    bytes: &[u8],
) -> Result<(Format, &[u8]), Refusal>
    ensures { FindsAs (λ x. (x.0, x.1.now)) result (header_found file magic upto bytes.now) }
{
    let Some((number, rest)) = u32_at(bytes) else {
        return Err(Refusal::Corrupt(file));
    };
    let Some((found, rest)) = u32_at(rest) else {
        return Err(Refusal::Corrupt(file));
    };
    if number != magic {
        return Err(Refusal::Corrupt(file));
    }
    let Some(format) = format_up_to(upto, found) else {
        return Err(Refusal::BadVersion);
    };
    Ok((format, rest))
}
