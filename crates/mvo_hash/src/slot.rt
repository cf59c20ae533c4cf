use mvo_types::RowKey;
use std::mem::size_of;

/// What a slot of the table holds.
#[derive(Clone, Copy, Debug, PartialEq, Eq)]
pub enum State {
    /// Nothing since the table was made.
    Empty,
    /// Nothing now, but a search goes on behind it.
    Left,
    /// A key with its number.
    Live,
}

/// A slot of the table: 16 bytes.
#[derive(Clone, Copy, Debug)]
pub struct Slot {
    pub key: u64,
    pub number: u32,
    pub table: u8,
    pub state: State,
}

const _: () = prove!(size_of::<Slot>() == 16);

impl Slot {
    ghost use Rattle.std.specs.Prelude.{◌≡◌, ◌↔◌, IsTrue};
    ghost use Rattle.mvo_hash.specs.Slots.{empty_slot, left_slot, live_slot, IsLive, slot_key};

    pub fn empty() -> Slot
        ensures { result ≡ empty_slot }
    {
        Slot {
            key: 0,
            number: 0,
            table: 0,
            state: State::Empty,
        }
    }

    pub fn left() -> Slot
        ensures { result ≡ left_slot }
    {
        Slot {
            key: 0,
            number: 0,
            table: 0,
            state: State::Left,
        }
    }

    pub fn live(key: RowKey, number: u32) -> Slot
        ensures { result ≡ live_slot key number }
    {
        Slot {
            key: key.key,
            number,
            table: key.table,
            state: State::Live,
        }
    }

    pub fn is_live(&self) -> bool
        ensures { IsTrue result ↔ IsLive self.now }
    {
        matches!(self.state, State::Live)
    }

    pub fn is_empty(&self) -> bool
        ensures { IsTrue result ↔ (self.now.state ≡ State.Empty) }
    {
        matches!(self.state, State::Empty)
    }

    pub fn holds(&self, key: RowKey) -> bool
        ensures { IsTrue result ↔ (IsLive self.now × (slot_key self.now ≡ key)) }
    {
        self.key == key.key && self.table == key.table && self.is_live()
    }

    pub fn row_key(&self) -> RowKey
        ensures { result ≡ slot_key self.now }
    {
        RowKey {
            table: self.table,
            key: self.key,
        }
    }
}
