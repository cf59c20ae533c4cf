ghost use Rattle.std.specs.Prelude.{◌≡◌, IfOk, OnErr};
ghost use Rattle.mvo_world.specs.Replies.{IsReplyTo};
ghost use Rattle.mvo_script.specs.Bound.{bound_by, BindsNone, BindsBegun, BindsEnd, KeepsBound};

use crate::bound::BoundTx;
use mvo_disk::Disk;
use mvo_types::Stamp;
use mvo_world::{Event, Reply, World};
use std::alloc::{AllocError, Global};
use std::collections::BTreeMap;

/// The transactions that a script has begun, by their names.
pub struct Names {
    alloc: Global,
    // None where a begin was refused, and none was accepted before.
    bound: BTreeMap<String, Option<BoundTx>>,
}

impl Drop for Names {
    fn drop(self) {
        let Names { alloc: _, bound: _ } = self;
    }
}

impl Names {
    /// No names.
    pub fn new(alloc: Global) -> Names
        ensures { BindsNone result }
    {
        Names {
            alloc,
            bound: BTreeMap::new(alloc),
        }
    }

    /// What the name is bound to, if it is bound.
    pub fn get(&self, name: &str) -> Option<BoundTx>
        ensures { result ≡ bound_by self.now name.now }
    {
        self.bound.get(name).copied().flatten()
    }

    /// Asks the world for this step, a begin of either kind, and binds the name to the transaction
    /// that it began, as one that isn't Committed. Where none was begun, each name stays as it was.
    /// Room for the name is taken first: an error has asked for nothing.
    pub fn begin<D: Disk>(
        &mut self,
        name: &str,
        event: Event,
        world: &mut World<D>,
    ) -> Result<Reply, AllocError>
        ensures asked { IfOk result (λ r. IsReplyTo D.Disk world.old event r world.new) }
        ensures names { IfOk result (BindsBegun self.old self.new name.now) }
        ensures names_err { OnErr result (KeepsBound self.old self.new) }
        ensures world_err { OnErr result (world.new ≡ world.old) }
    {
        let name = String::from_str(self.alloc, name)?;
        let place = self.bound.entry(name)?.or_insert(None);
        let reply = world.step(event);
        if let Reply::Began(tx) = &reply {
            *place = Some(BoundTx::begun(*tx));
        }
        Ok(reply)
    }

    /// Notes the end timestamp of the transaction that the name is bound to, which is Committed.
    pub fn note_end(&mut self, name: &str, end: Stamp)
        ensures { BindsEnd self.old self.new name.now end }
    {
        if let Some(place) = self.bound.get_mut(name) {
            if let Some(BoundTx { tx, .. }) = *place {
                *place = Some(BoundTx { tx, end: Some(end) });
            }
        }
    }
}
