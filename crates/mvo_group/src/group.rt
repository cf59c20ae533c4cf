use crate::decode::parts_of;
use crate::encode::append_body;
use crate::record::Record;
use crate::rules::{keeps_rules, len_of_body};
use mvo_format::Format;
use mvo_types::{MAX_BODY_LEN, Stamp};
use std::alloc::{AllocError, Global};
use std::marker::Model;

/// The committed transactions with an end above prev and at most mark, in the order of their ends:
/// what one frame of the log carries. Contracts see it as its prev, its mark and its records.
///
/// Each group keeps the rules of `KeepsRules`: prev < mark <= 2^62; at most 1,024 records, whose
/// ends rise strictly and lie in (prev, mark]; in each record 1 to 256 writes, whose (table, key)
/// rise strictly; tables 0 to 63; data of at most 4,096 bytes; a body of at most 4,194,304 bytes.
#[derive(Debug)]
pub struct Group {
    prev: Stamp,
    mark: Stamp,
    records: Vec<Record>,
}

/// A version that allows each row that there is.
const NO_LIMITS: Format = Format {
    version: 0,
    max_table: u8::MAX,
    max_data_len: u16::MAX,
};

impl Drop for Group {
    fn drop(self) {
        let Group {
            prev: _,
            mark: _,
            records: _,
        } = self;
    }
}

impl Model for Group {
    ghost use Rattle.mvo_group.specs.Data.{GroupData, group_of};
    ghost use Rattle.mvo_group.specs.Rules.{IsGroup};

    ghost Value = { GroupData };

    ghost view = { λ g. group_of g.prev.0 g.mark.0 g.records.items };

    ghost invariant = { λ g. IsGroup (group_of g.prev.0 g.mark.0 g.records.items) };
}

impl Group {
    ghost use Rattle.std.specs.Prelude.{◌≡◌, ◌++◌, length, OnOk, OnErr, IfOk, IfSome, Some};
    ghost use Rattle.std.specs.Option.{SomeIff};
    ghost use Rattle.mvo_group.specs.Data.{GroupData, group_of};
    ghost use Rattle.mvo_group.specs.Rules.{KeepsRules, IsGroup, body_len};
    ghost use Rattle.mvo_group.specs.Allowed.{IsAllowedGroup, IsGroupWithin};
    ghost use Rattle.mvo_group.specs.Body.{body_of};

    /// The group of these parts, where they keep the rules and the version allows each write.
    fn of_parts(format: Format, prev: Stamp, mark: Stamp, records: Vec<Record>) -> Option<Group>
        ensures { let g = group_of prev.0 mark.0 records.items in
            SomeIff result (KeepsRules g × IsAllowedGroup format g) g }
    {
        if !keeps_rules(format, prev, mark, &records) {
            return None;
        }
        Some(Group {
            prev,
            mark,
            records,
        })
    }

    /// The group of these parts, where they keep the rules. Parts that break one are dropped.
    pub fn new(prev: Stamp, mark: Stamp, records: Vec<Record>) -> Option<Group>
        ensures { let g = group_of prev.0 mark.0 records.items in SomeIff result (KeepsRules g) g }
    {
        Group::of_parts(NO_LIMITS, prev, mark, records)
    }

    /// The mark that held before it: each record ends above that.
    pub fn prev(&self) -> Stamp
        ensures value { result.0 ≡ self.now.prev }
        ensures group { IsGroup self.now }
    {
        self.prev
    }

    /// The mark that holds after it: each record ends at or below that, and those of later groups
    /// above.
    pub fn mark(&self) -> Stamp
        ensures value { result.0 ≡ self.now.mark }
        ensures group { IsGroup self.now }
    {
        self.mark
    }

    /// The records in the order of their ends.
    pub fn records(&self) -> &[Record]
        ensures value { result.now ≡ self.now.records }
        ensures group { IsGroup self.now }
    {
        self.records.as_slice()
    }

    /// The records by value, in the order of their ends.
    pub fn into_records(self) -> Vec<Record>
        ensures value { result.items ≡ self.records }
        ensures group { IsGroup self }
    {
        let Group {
            prev: _,
            mark: _,
            records: left,
        } = self;
        left
    }

    /// How many bytes its body has, at most 4,194,304. Nothing is encoded for it: each write is
    /// looked at once, and its data isn't read.
    pub fn encoded_len(&self) -> usize
        ensures value { result ≡ body_len self.now }
        ensures bytes { result ≡ length (body_of self.now) }
        ensures group { IsGroup self.now }
    {
        len_of_body(&self.records)
    }

    /// Appends the group's body to the bytes. Where memory is refused, they stay as they are.
    pub fn encode_into(&self, out: &mut Vec<u8>) -> Result<(), AllocError>
        ensures ok { OnOk result (out.new.items ≡ out.old.items ++ body_of self.now) }
        ensures err { OnErr result (out.new.items ≡ out.old.items) }
    {
        out.reserve(self.encoded_len())?;
        let Group {
            prev,
            mark,
            records,
        } = self;
        append_body(out, *prev, *mark, records);
        Ok(())
    }

    /// The group's body, which no other group has. Its allocator is that of the records.
    pub fn encode(&self) -> Result<Vec<u8>, AllocError>
        ensures body { IfOk result (λ body. body.items ≡ body_of self.now) }
        ensures one { (g : GroupData) → IsGroup g → body_of g ≡ body_of self.now → g ≡ self.now }
    {
        let mut body = Vec::new(*self.records.allocator());
        self.encode_into(&mut body)?;
        Ok(body)
    }

    /// The group with this body, of which the version allows each write, or none where the bytes
    /// aren't all of one such group's body.
    pub fn decode(alloc: Global, format: Format, body: &[u8]) -> Result<Option<Group>, AllocError>
        ensures found { IfOk result (λ found. IfSome found
            (λ g. IsGroupWithin format g × (body.now ≡ body_of g))) }
        ensures only { IfOk result (λ found. (g : GroupData) → IsGroupWithin format g
            → body.now ≡ body_of g → found ≡ Some g) }
    {
        if body.len() > MAX_BODY_LEN {
            return Ok(None);
        }
        let Some((prev, mark, records)) = parts_of(alloc, body)? else {
            return Ok(None);
        };
        Ok(Group::of_parts(format, prev, mark, records))
    }
}
