ghost use Rattle.std.specs.Prelude.{◌≡◌};
ghost use Rattle.mvo_deps.specs.Data.{no_dependencies};

use crate::answers::Validation;
use mvo_content::TakenContent;
use mvo_deps::{Dependencies, Node};
use mvo_txn::TxnTable;
use mvo_work::{WordPlace, Writes};
use std::alloc::{AllocError, Global};

/// The unfinished transactions.
pub type Table = TxnTable<Node<KeptTransaction>>;

/// Whether a transaction is read-only, and how far such a one is. For the table a read-only one is
/// Active until it ends, and Aborted then.
#[derive(Clone, Copy)]
pub enum TransactionKind {
    /// It isn't read-only.
    Other,
    /// It reads.
    Reading,
    /// It is Preparing.
    Preparing,
    /// It is Committed.
    Committed,
    /// It is Aborted.
    Aborted,
}

/// What the core keeps of an unfinished transaction, beside where it stands and on whom it depends.
#[derive(Drop)]
pub struct KeptTransaction {
    /// What its precommit took out of its work, if it isn't read-only: nothing before.
    pub taken: TakenContent,
    /// What it has written: the words that name it.
    pub writes: Writes,
    /// Its place in the tale, from when it draws its end.
    pub place: usize,
    /// How many of its entries are checked.
    pub checked: usize,
    /// Whether all of them are.
    pub valid: bool,
    /// Whether it is read-only, and how far it is then.
    pub kind: TransactionKind,
}

impl KeptTransaction {
    ghost use Rattle.std.specs.Prelude.{◌≡◌, ◌∷◌, ◌≤◌, OnOk, OnErr};
    ghost use Rattle.std.specs.Option.{option_to_list};
    ghost use Rattle.mvo_core.specs.Own.{is_last_check, checked_as};
    ghost use Rattle.mvo_core.specs.Keeping.{IsPlacedInTale, IsCounted};
    ghost use Rattle.mvo_core.specs.Keeping.{HasWrittenAsMuch, HasMadeRoom, HasWrittenMore};
    ghost use Rattle.mvo_core.specs.Keeping.{HasEndedAs, HasStartedChecks};

    /// It has this place in the tale, this is taken out of its work, and none of its entries is
    /// checked yet.
    pub fn keep_place(&mut self, place: usize, taken: TakenContent)
        ensures { IsPlacedInTale place taken self.old self.new }
    {
        self.taken = taken;
        self.place = place;
        self.checked = 0;
        self.valid = false;
    }

    /// It is read-only, and its checks begin: none of its entries is checked yet.
    pub fn start_checks(&mut self)
        ensures { HasStartedChecks self.old self.new }
    {
        self.kind = TransactionKind::Preparing;
        self.checked = 0;
        self.valid = false;
    }

    /// It is read-only, and has ended so.
    pub fn end_as(&mut self, kind: TransactionKind)
        ensures { HasEndedAs kind self.old self.new }
    {
        self.kind = kind;
    }

    /// Room for the words that a write may put.
    #[inline(always)]
    pub fn make_room(&mut self) -> Result<(), AllocError>
        ensures ok { OnOk result (HasMadeRoom self.old self.new) }
        ensures err { OnErr result (HasWrittenAsMuch self.old self.new) }
    {
        self.writes.make_room()
    }

    /// It has put this word, and the other, if there is one.
    #[inline(always)]
    pub fn write(&mut self, word: WordPlace, other: Option<WordPlace>)
        requires { 2 ≤ self.old.writes.room }
        ensures { HasWrittenMore (word ∷ option_to_list other) self.old self.new }
    {
        self.writes.push_word(word);
        if let Some(other) = other {
            self.writes.push_word(other);
        }
    }

    /// What has memory that another transaction may use.
    pub fn into_parts(self) -> (TakenContent, Writes) {
        let KeptTransaction {
            taken,
            writes,
            place: _,
            checked: _,
            valid: _,
            kind: _,
        } = self;
        (taken, writes)
    }

    /// Counts a check of so many entries, and says whether one is left. The last one isn't counted.
    pub fn count_check(&mut self, count: usize) -> Validation
        ensures counted { IsCounted count self.old self.new }
        ensures answer { result ≡ checked_as (is_last_check count self.old) }
    {
        let left = count.saturating_sub(self.checked);
        self.valid = left <= 1;
        if self.valid {
            return Validation::Valid;
        }
        self.checked += 1;
        Validation::More
    }
}

/// One that is read-only, has written this and nothing else, and has this place in the tale.
pub fn begun_reading(alloc: Global, writes: Writes, place: usize) -> Node<KeptTransaction>
    ensures dependencies { result.dependencies ≡ no_dependencies }
    ensures writes { result.own.writes ≡ writes }
    ensures place { result.own.place ≡ place }
    ensures kind { result.own.kind ≡ TransactionKind.Reading }
{
    Node {
        dependencies: Dependencies::new(alloc),
        own: KeptTransaction {
            taken: TakenContent::nothing(alloc),
            writes,
            place,
            checked: 0,
            valid: false,
            kind: TransactionKind::Reading,
        },
    }
}

/// One that has written this and nothing else, and isn't read-only.
pub fn begun(alloc: Global, writes: Writes) -> Node<KeptTransaction>
    ensures dependencies { result.dependencies ≡ no_dependencies }
    ensures writes { result.own.writes ≡ writes }
    ensures kind { result.own.kind ≡ TransactionKind.Other }
{
    Node {
        dependencies: Dependencies::new(alloc),
        own: KeptTransaction {
            taken: TakenContent::nothing(alloc),
            writes,
            place: 0,
            checked: 0,
            valid: false,
            kind: TransactionKind::Other,
        },
    }
}
