ghost use Rattle.std.specs.Prelude.{◌≡◌, ◌≤◌, length, nat_lt, false, OnOk, OnErr, MatchOption};
ghost use Rattle.mvo_deps.specs.Data.{no_dependencies, is_id_among, AreDistinctIds, IsLastBeyond};
ghost use Rattle.mvo_deps.specs.Data.{with_dependency, with_dependent, without_dependents};
ghost use Rattle.mvo_deps.specs.Data.{without_last_dependency, without_last_dependent, dependency_noted};

use crate::outcome::Outcome;
use mvo_types::TxId;
use std::alloc::{AllocError, Global};
use std::marker::Model;
use std::mem;

/// On whom a transaction depends, and who depends on it. Contracts see the counter of those that
/// aren't settled, the flag, and both lists.
#[derive(Drop)]
pub struct Dependencies {
    unsettled: usize,
    aborted: Option<TxId>,
    on: Vec<TxId>,
    // Each stands here once.
    dependents: Vec<TxId>,
}

impl Model for Dependencies {
    ghost use Rattle.mvo_deps.specs.Data.{DependencyData, IsDependencySound};

    ghost Value = { DependencyData };

    ghost view = { λ d. record {
      unsettled = d.unsettled;
      aborted = d.aborted;
      on = d.on.items;
      dependents = d.dependents.items;
    } };

    ghost invariant = { λ d. IsDependencySound d.unsettled d.on.items d.dependents.items };
}

impl Dependencies {
    /// None. It takes no memory.
    pub fn new(alloc: Global) -> Dependencies
        ensures { result ≡ no_dependencies }
    {
        Dependencies {
            unsettled: 0,
            aborted: None,
            on: Vec::new(alloc),
            dependents: Vec::new(alloc),
        }
    }

    /// How many transactions it depends on that aren't settled.
    pub fn unsettled(&self) -> usize
        ensures { result ≡ self.now.unsettled }
    {
        self.unsettled
    }

    /// The first of those it depends on that was aborted.
    pub fn aborted(&self) -> Option<TxId>
        ensures { result ≡ self.now.aborted }
    {
        self.aborted
    }

    /// Whether it depends on the transaction, which may be settled by now.
    pub fn depends_on(&self, id: TxId) -> bool
        ensures { result ≡ is_id_among id self.now.on }
    {
        self.on.contains(&id)
    }

    /// Whether somebody depends on it.
    pub fn has_dependents(&self) -> bool
        ensures { result ≡ nat_lt 0 (length self.now.dependents) }
    {
        !self.dependents.is_empty()
    }

    /// Whether the transaction depends on it.
    pub(crate) fn has_dependent(&self, id: TxId) -> bool
        ensures { result ≡ is_id_among id self.now.dependents }
    {
        self.dependents.contains(&id)
    }

    /// On whom it depends, in the order in which they were registered.
    pub(crate) fn on(&self) -> &[TxId]
        ensures { result.now ≡ self.now.on }
    {
        &self.on
    }

    /// The last of those it depends on, where they are more than so many.
    pub(crate) fn last_beyond(&self, count: usize) -> Option<TxId>
        ensures { MatchOption result (length self.now.on ≤ count) (IsLastBeyond count self.now.on) }
    {
        if self.on.len() <= count {
            return None;
        }
        self.on.last().copied()
    }

    /// It depends on one more, which isn't settled.
    pub(crate) fn add(&mut self, on: TxId) -> Result<(), AllocError>
        ensures ok { OnOk result (self.new ≡ with_dependency on self.old) }
        ensures err { OnErr result (self.new ≡ self.old) }
    {
        self.on.push(on)?;
        let _room = self.on.len();
        self.unsettled += 1;
        Ok(())
    }

    /// One more depends on it.
    pub(crate) fn add_dependent(&mut self, id: TxId) -> Result<(), AllocError>
        requires { is_id_among id self.old.dependents ≡ false }
        ensures ok { OnOk result (self.new ≡ with_dependent id self.old) }
        ensures err { OnErr result (self.new ≡ self.old) }
    {
        self.dependents.push(id)?;
        Ok(())
    }

    /// Takes back the one that it came to depend on last.
    pub(crate) fn drop_last(&mut self)
        ensures { self.new ≡ without_last_dependency self.old }
    {
        self.on.pop();
        if self.unsettled > 0 {
            self.unsettled -= 1;
        }
    }

    /// Takes back the dependent that was added last.
    pub(crate) fn drop_last_dependent(&mut self)
        ensures { self.new ≡ without_last_dependent self.old }
    {
        self.dependents.pop();
    }

    /// Nobody depends on it any more. Answers who did, each once.
    pub(crate) fn take_dependents(&mut self) -> Vec<TxId>
        ensures taken { result.items ≡ self.old.dependents }
        ensures apart { AreDistinctIds result.items }
        ensures left { self.new ≡ without_dependents self.old }
    {
        let none = Vec::new(*self.dependents.allocator());
        mem::replace(&mut self.dependents, none)
    }

    /// One that it depends on is settled.
    pub(crate) fn note(&mut self, outcome: Outcome)
        ensures { self.new ≡ dependency_noted outcome self.old }
    {
        self.unsettled = self.unsettled.saturating_sub(1);
        if let Outcome::Aborted(id) = outcome {
            self.aborted = self.aborted.or(Some(id));
        }
    }
}
