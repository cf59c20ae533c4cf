use crate::engine::Engine;
use crate::keys::key_of;
use crate::open::Open;
use crate::step::Step;
use mvo_visible::Shown;
use std::alloc::{AllocError, Global};
use std::test::Fail;

/// The engine doesn't have the transactions of a story among its open ones.
pub struct Story {
    pub engine: Engine,
    told: Vec<Open>,
}

impl Drop for Story {
    fn drop(self) {
        let Story { engine: _, told: _ } = self;
    }
}

impl Story {
    pub fn new(alloc: Global) -> Result<Story, AllocError> {
        Ok(Story {
            engine: Engine::new(alloc, 5)?,
            told: Vec::new(alloc),
        })
    }

    fn begin(&mut self) -> Result<(), Fail> {
        self.engine.begin()?;
        let tx = self.engine.open.pop().ok_or("it has begun")?;
        self.told.push(tx)?;
        Ok(())
    }

    fn insert(&mut self, tx: usize, sort: u64) -> Result<(), Fail> {
        let tx = self.told.get_mut(tx).ok_or("it has begun")?;
        self.engine.insert(tx, key_of(1), sort)?;
        Ok(())
    }

    fn delete(&mut self, tx: usize) -> Result<(), Fail> {
        let tx = self.told.get_mut(tx).ok_or("it has begun")?;
        self.engine.delete(tx, key_of(1))?;
        Ok(())
    }

    fn precommit(&mut self, tx: usize) -> Result<(), Fail> {
        let tx = self.told.get(tx).ok_or("it has begun")?;
        self.engine.precommit(tx)?;
        Ok(())
    }

    fn settle(&mut self, tx: usize) -> Result<(), Fail> {
        let tx = self.told.get(tx).ok_or("it has begun")?;
        self.engine.settle(tx);
        Ok(())
    }

    pub fn withdraw(&mut self, tx: usize) -> Result<(), Fail> {
        let tx = self.told.get(tx).ok_or("it has begun")?;
        self.engine.abort(tx)?;
        Ok(())
    }

    fn finish(&mut self, tx: usize) -> Result<(), Fail> {
        let tx = self.told.get_mut(tx).ok_or("it has begun")?;
        self.engine.finish(tx, None);
        Ok(())
    }

    fn go(&mut self, step: Step) -> Result<(), Fail> {
        match step {
            Step::Begin => self.begin(),
            Step::Insert(tx, sort) => self.insert(tx, sort),
            Step::Delete(tx) => self.delete(tx),
            Step::Precommit(tx) => self.precommit(tx),
            Step::Settle(tx) => self.settle(tx),
            Step::Withdraw(tx) => self.withdraw(tx),
            Step::Finish(tx) => self.finish(tx),
        }
    }

    pub fn follow(&mut self, steps: &[Step]) -> Result<(), Fail> {
        for step in steps {
            self.go(*step)?;
        }
        Ok(())
    }

    /// What one that begins now is shown where the latest change is a removal by this one.
    pub fn removed_by(&self, tx: usize) -> Result<Shown, Fail> {
        let tx = self.told.get(tx).ok_or("it has begun")?;
        Ok(Shown {
            version: None,
            depends_on: Some(tx.id),
        })
    }

    /// What it is shown where the latest change is the put of this one, which is settled.
    pub fn put_by(&self, tx: usize) -> Result<Shown, Fail> {
        let tx = self.told.get(tx).ok_or("it has begun")?;
        let version = tx.last_write(key_of(1)).flatten();
        if version.is_none() {
            return Err(Fail::from("it has put the row"));
        }
        Ok(Shown {
            version,
            depends_on: None,
        })
    }
}
