//! A segment that is read in slices.
use crate::equal::{holds, same};
use crate::files::frame::tests::SEGMENT;
use mvo_format::FIRST_FORMAT;
use mvo_frame::{Kind, MAX_FRAME_LEN, Reached, SLICE_LEN, SegmentReader};
use mvo_types::{Refusal, Stamp};
use std::alloc::Global;
use std::process::Abort;
use std::test::Fail;

/// A segment of the groups (0, 2] and (2, 4]. The second frame stands at 62, and the closed gate at
/// 116.
fn two_groups(alloc: Global) -> Result<Vec<u8>, Fail> {
    let mut bytes = SEGMENT[..62].to_vec(alloc)?;
    bytes.extend_from_slice(&SEGMENT[8..13])?;
    bytes.extend_from_slice(&[2, 0, 0, 0, 0, 0, 0, 0, 4])?;
    bytes.extend_from_slice(&SEGMENT[22..31])?;
    bytes.push(4)?;
    bytes.extend_from_slice(&SEGMENT[32..])?;
    Ok(bytes)
}

/// The reader of such bytes, with nothing read.
fn begun(alloc: Global, bytes: &[u8]) -> Result<SegmentReader, Fail> {
    let head = bytes.get(..8).ok_or("a header")?;
    let begun = SegmentReader::begin(alloc, FIRST_FORMAT.version, 3, Stamp(0), head)?;
    Ok(begun)
}

/// A slice of the bytes from the gate on up to an end.
fn slice(
    alloc: Global,
    reader: &mut SegmentReader,
    bytes: &[u8],
    end: usize,
    most: usize,
) -> Result<Reached, Refusal> {
    let window = bytes.get(reader.gate()..end).unwrap_or_default();
    reader.more(alloc, window, most)
}

/// What was read are both groups.
fn has_both(rt: &impl Abort, reader: SegmentReader) -> Result<(), Fail> {
    reader.end(Kind::Sealed)?;
    let contents = reader.into_contents();
    same(rt, &contents.groups.len(), &2);
    same(rt, &contents.gate, &116);
    same(rt, &contents.mark.0, &4);
    Ok(())
}

#[test]
fn a_slice_is_of_one_group_at_least(rt: HostRuntime) -> Result<(), Fail> {
    let alloc = rt.alloc();
    holds(&rt, SLICE_LEN < MAX_FRAME_LEN);
    let bytes = two_groups(alloc)?;
    let mut reader = begun(alloc, &bytes)?;
    same(
        &rt,
        &slice(alloc, &mut reader, &bytes, 117, 0)?,
        &Reached::More,
    );
    same(&rt, &reader.gate(), &62);
    same(
        &rt,
        &slice(alloc, &mut reader, &bytes, 117, 0)?,
        &Reached::More,
    );
    same(&rt, &reader.gate(), &116);
    same(
        &rt,
        &slice(alloc, &mut reader, &bytes, 117, 0)?,
        &Reached::End,
    );
    has_both(&rt, reader)
}

#[test]
fn a_frame_that_is_cut_is_the_next_slices_first(rt: HostRuntime) -> Result<(), Fail> {
    let alloc = rt.alloc();
    let bytes = two_groups(alloc)?;
    let mut reader = begun(alloc, &bytes)?;
    let most = SLICE_LEN;
    same(
        &rt,
        &slice(alloc, &mut reader, &bytes, 100, most)?,
        &Reached::More,
    );
    same(&rt, &reader.gate(), &62);
    same(
        &rt,
        &slice(alloc, &mut reader, &bytes, 117, most)?,
        &Reached::End,
    );
    has_both(&rt, reader)
}

#[test]
fn bytes_that_end_in_a_frame_are_refused(rt: HostRuntime) -> Result<(), Fail> {
    let alloc = rt.alloc();
    let bytes = two_groups(alloc)?;
    let mut reader = begun(alloc, &bytes)?;
    let most = SLICE_LEN;
    same(
        &rt,
        &slice(alloc, &mut reader, &bytes, 100, most)?,
        &Reached::More,
    );
    let refused = slice(alloc, &mut reader, &bytes, 100, most).err();
    same(&rt, &refused, &Some(Refusal::Corrupt(3)));
    same(&rt, &reader.gate(), &62);
    Ok(())
}
