use crate::equal::{holds, same};
use mvo_bytes::{u8_at, u16_at, u32_at, u64_at};
use mvo_format::{FIRST_FORMAT, behind_header};
use mvo_types::Refusal;
use std::test::Fail;

// `MVOL`, the lowest byte first, and the version.
const MAGIC: u32 = 0x4c4f_564d;

const BYTES: [u8; 9] = [0x4d, 0x56, 0x4f, 0x4c, 1, 0, 0, 0, 7];

// The same of a version.
fn of_version(version: u8) -> [u8; 9] {
    let mut bytes = BYTES;
    bytes[4] = version;
    bytes
}

#[test]
fn the_magic_is_looked_at_first(rt: HostRuntime) -> Result<(), Fail> {
    let (format, rest) = behind_header(2, MAGIC, FIRST_FORMAT.version, &BYTES)?;
    same(&rt, &format, &FIRST_FORMAT);
    same(&rt, &rest, &[7].as_slice());
    same(
        &rt,
        &behind_header(2, MAGIC, 0, &BYTES).err(),
        &Some(Refusal::BadVersion),
    );
    same(
        &rt,
        &behind_header(2, 0, 0, &BYTES).err(),
        &Some(Refusal::Corrupt(2)),
    );
    for len in 0..8usize {
        same(
            &rt,
            &behind_header(3, MAGIC, 0, &BYTES[..len]).err(),
            &Some(Refusal::Corrupt(3)),
        );
    }
    Ok(())
}

// What is found of a header up to a version: the table and the data that its format allows, or that
// its version is none.
fn allowed(upto: u32, version: u8) -> (u32, u32) {
    match behind_header(2, MAGIC, upto, &of_version(version)) {
        Ok((format, _)) => (u32::from(format.max_table), u32::from(format.max_data_len)),
        Err(_) => (0, 0),
    }
}

#[test]
fn a_header_has_the_format_of_its_version(rt: HostRuntime) {
    let cases: [(u32, u8, (u32, u32)); 8] = [
        (1, 1, (15, 1024)),
        (2, 1, (15, 1024)),
        (2, 2, (63, 4096)),
        (u32::MAX, 2, (63, 4096)),
        (1, 2, (0, 0)),
        (2, 0, (0, 0)),
        (2, 3, (0, 0)),
        (u32::MAX, 255, (0, 0)),
    ];
    for (upto, version, found) in cases {
        same(&rt, &allowed(upto, version), &found);
    }
}

#[test]
fn numbers_begin_with_their_lowest_byte(rt: HostRuntime) -> Result<(), Fail> {
    let (number, rest) = u8_at(&BYTES).ok_or("one byte")?;
    same(&rt, &number, &0x4d);
    same(&rt, &rest.len(), &8);
    let (number, rest) = u16_at(&BYTES).ok_or("two bytes")?;
    same(&rt, &number, &0x564d);
    same(&rt, &rest.len(), &7);
    let (number, rest) = u32_at(&BYTES).ok_or("four bytes")?;
    same(&rt, &number, &MAGIC);
    same(&rt, &rest.len(), &5);
    let (number, rest) = u64_at(&BYTES).ok_or("eight bytes")?;
    same(&rt, &number, &0x0000_0001_4c4f_564d);
    same(&rt, &rest.len(), &1);
    holds(&rt, u64_at(rest).is_none());
    Ok(())
}
