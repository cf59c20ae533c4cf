ghost use Rattle.std.specs.Prelude.{◌≡◌, ◌<◌, ◌^◌, ◌-◌};

use crate::held::Held;
use mvo_types::{Stamp, TxId};
use std::marker::Model;

/// A Begin or End word, of 64 bits. Contracts see what it holds.
///
/// With the top bit set, the low 63 bits are a transaction's id; otherwise the word is a
/// timestamp, and the greatest of these, 2^63 - 1, is infinity.
#[derive(Clone, Copy, Debug, PartialEq, Eq)]
pub struct Word {
    bits: u64,
}

impl Model for Word {
    ghost use Rattle.mvo_word.specs.declared.held.Held.{Held as TheHeld};

    ghost Value = { TheHeld };

    ghost use Rattle.mvo_word.specs.Bits.{held_in, bits_of};
    ghost use Rattle.mvo_word.specs.Back.{word-bits_of};

    ghost view = { λ w. held_in w.bits };

    ghost inverse = { λ h. record { bits = bits_of h } };

    ghost inverse_ok = { λ w _. word-bits_of w };
}

/// The bit that marks an id.
const TOP_BIT: u64 = 1 << 63;

impl Word {
    /// The word that holds no timestamp and no id.
    pub const INFINITY: Word = Word {
        bits: (1 << 63) - 1,
    };

    /// A timestamp.
    pub fn stamp(stamp: Stamp) -> Word
        requires { stamp.0 < 2 ^ 63 - 1 }
        ensures { result ≡ Held.At stamp }
    {
        Word { bits: stamp.0 }
    }

    /// A transaction's id.
    pub fn id(id: TxId) -> Word
        requires { id.0 < 2 ^ 63 }
        ensures { result ≡ Held.By id }
    {
        Word {
            bits: id.0 | TOP_BIT,
        }
    }

    /// What the word holds.
    pub fn read(&self) -> Held
        ensures { result ≡ self.now }
    {
        if self.bits & TOP_BIT != 0 {
            Held::By(TxId(self.bits & !TOP_BIT))
        } else if self.bits == Word::INFINITY.bits {
            Held::Infinity
        } else {
            Held::At(Stamp(self.bits))
        }
    }
}
