//! Numbers at the front of some bytes, the lowest byte first, with the bytes behind them.
ghost use Rattle.std.specs.Prelude.{◌≡◌, List, length, Option, Some, None};
ghost use Rattle.mvo_bytes.specs.Reading.{ReadingGives, number_at};

use byteorder::{ByteOrder, LittleEndian};

/// A number of one byte. None where there is none.
#[tactic(auto, unfolding(crate::specs::Reading::number_at))]
pub fn u8_at(bytes: &[u8]) -> Option<(u8, &[u8])>
    ensures { ReadingGives (λ x. (x.0, x.1.now)) result (number_at 1 bytes.now) }
{
    if bytes.len() < 1 {
        return None;
    }
    let (front, rest) = bytes.split_at(1);
    Some((front[0], rest))
}

/// A number of two bytes. None where there are fewer.
#[tactic(auto, unfolding(crate::specs::Reading::number_at))]
pub fn u16_at(bytes: &[u8]) -> Option<(u16, &[u8])>
    ensures { ReadingGives (λ x. (x.0, x.1.now)) result (number_at 2 bytes.now) }
{
    if bytes.len() < 2 {
        return None;
    }
    Some((LittleEndian::read_u16(bytes), &bytes[2..]))
}

/// A number of four bytes. None where there are fewer.
#[tactic(auto, unfolding(crate::specs::Reading::number_at))]
pub fn u32_at(bytes: &[u8]) -> Option<(u32, &[u8])>
    ensures { ReadingGives (λ x. (x.0, x.1.now)) result (number_at 4 bytes.now) }
{
    if bytes.len() < 4 {
        return None;
    }
    Some((LittleEndian::read_u32(bytes), &bytes[4..]))
}

/// A number of eight bytes. None where there are fewer.
#[tactic(auto, unfolding(crate::specs::Reading::number_at))]
pub fn u64_at(bytes: &[u8]) -> Option<(u64, &[u8])>
    ensures { ReadingGives (λ x. (x.0, x.1.now)) result (number_at 8 bytes.now) }
{
    if bytes.len() < 8 {
        return None;
    }
    Some((LittleEndian::read_u64(bytes), &bytes[8..]))
}
