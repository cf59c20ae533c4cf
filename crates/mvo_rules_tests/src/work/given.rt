use crate::content::{nothing_shown, read_key};
use crate::equal::same;
use mvo_content::WorkContent;
use mvo_model::Serial;
use std::alloc::Global;
use std::process::Abort;
use std::test::Fail;

/// A read is told, and then there are so many.
fn read(
    rt: &impl Abort,
    content: &mut WorkContent,
    others: &Serial,
    key: u64,
    count: usize,
) -> Result<(), Fail> {
    let is_told = read_key(content, others, key)?;
    same(rt, &is_told, &true);
    same(rt, &content.operations().len(), &count);
    Ok(())
}

/// Reads go into the list that is given. Another one that is given then changes nothing.
fn read_into_lists(
    rt: &impl Abort,
    alloc: Global,
    content: &mut WorkContent,
    others: &Serial,
) -> Result<(), Fail> {
    content.keep_list(Vec::with_capacity(alloc, 3)?);
    same(rt, &content.operations().len(), &0);
    read(rt, content, others, 1, 1)?;
    content.keep_list(Vec::with_capacity(alloc, 7)?);
    same(rt, &content.operations().len(), &1);
    read(rt, content, others, 2, 2)?;
    same(rt, &content.take_operations().capacity(), &3);
    Ok(())
}

#[test]
fn operations_go_into_the_list_that_is_given(rt: HostRuntime) -> Result<(), Fail> {
    let content = &mut WorkContent::new(rt.alloc());
    read_into_lists(&rt, rt.alloc(), content, &nothing_shown(rt.alloc()))
}
