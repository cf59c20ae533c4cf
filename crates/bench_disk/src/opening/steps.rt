//! The steps of a store without their clauses, which the proof of this program doesn't need.
use anyhow::{Result, bail};
use mvo_disk::MemDisk;
use mvo_group::Group;
use mvo_store::{Progress, Store};
use mvo_types::Refusal;

pub type MemStore = Store<MemDisk>;

pub fn take(store: &mut MemStore, group: Group) -> Result<()> {
    if group.prev().0 != store.mark().0 {
        bail!("the group follows the mark");
    }
    if store.take_group(group).is_err() {
        bail!("the group is taken");
    }
    Ok(())
}

pub fn append_body(store: &mut MemStore) -> Result<(), Refusal> {
    store.append_body()
}

pub fn append_open(store: &mut MemStore) -> Result<(), Refusal> {
    store.append_open()?;
    Ok(())
}

pub fn rotate_write(store: &mut MemStore) -> Result<(), Refusal> {
    store.rotate_write()
}

pub fn checkpoint_read(store: &mut MemStore) -> Result<(), Refusal> {
    store.checkpoint_read()
}

pub fn checkpoint_data(store: &mut MemStore) -> Result<(), Refusal> {
    store.checkpoint_data()
}

pub fn checkpoint_delta(store: &mut MemStore) -> Result<Progress, Refusal> {
    store.checkpoint_delta()
}

fn install_close(store: &mut MemStore) -> Result<(), Refusal> {
    store.install_close()
}

fn install_body(store: &mut MemStore) -> Result<(), Refusal> {
    store.install_body()
}

fn install_open(store: &mut MemStore) -> Result<(), Refusal> {
    store.install_open()?;
    Ok(())
}

/// All steps that install what is written.
pub fn install(store: &mut MemStore) -> Result<(), Refusal> {
    install_close(store)?;
    install_body(store)?;
    install_open(store)
}
