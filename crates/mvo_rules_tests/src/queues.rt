ghost use Rattle.std.specs.Prelude.{◌≤◌};

use crate::equal::{same, same_at};
use mvo_queue::Queue;
use std::alloc::{AllocError, Global};
use std::collections::VecDeque;
use std::process::Abort;
use std::test::Fail;

/// Looks whether both have the same in front and at a place.
fn compare_at(rt: &impl Abort, queue: &Queue<u64>, list: &VecDeque<u64>, at: usize) {
    same_at(rt, &queue.len(), &list.len(), at as u64);
    same_at(
        rt,
        &queue.front().copied(),
        &list.front().copied(),
        at as u64,
    );
    same_at(
        rt,
        &queue.get(at).copied(),
        &list.get(at).copied(),
        at as u64,
    );
}

/// Looks whether both have the same at each place, and nothing behind.
fn compare(rt: &impl Abort, queue: &Queue<u64>, list: &VecDeque<u64>) {
    for at in 0..list.len().saturating_add(2) {
        compare_at(rt, queue, list, at);
    }
}

/// Adds so many items to both.
fn push(queue: &mut Queue<u64>, list: &mut VecDeque<u64>, count: u64) -> Result<(), AllocError> {
    for item in 0..count {
        queue.push_back(item)?;
        list.push_back(item)?;
    }
    Ok(())
}

/// Takes so many items off both, from the front.
fn pop_front(rt: &impl Abort, queue: &mut Queue<u64>, list: &mut VecDeque<u64>, count: usize) {
    for at in 0..count {
        same_at(rt, &queue.pop_front(), &list.pop_front(), at as u64);
    }
}

/// Takes so many items off both, from the back.
fn pop_back(rt: &impl Abort, queue: &mut Queue<u64>, list: &mut VecDeque<u64>, count: usize) {
    for at in 0..count {
        same_at(rt, &queue.pop_back(), &list.pop_back(), at as u64);
    }
}

/// Puts other items in the places of so many, in both.
fn replace(queue: &mut Queue<u64>, list: &mut VecDeque<u64>, count: usize) {
    for at in 0..count {
        if at < queue.len() && at < list.len() {
            queue.set(at, at as u64 ^ 5);
            list[at] = at as u64 ^ 5;
        }
    }
}

/// Whatever count of items is pushed, those and no others come out, from either end.
fn fill_and_empty(rt: &impl Abort, alloc: Global, count: u64) -> Result<(), AllocError> {
    let mut queue = Queue::new(alloc);
    let mut list = VecDeque::new(alloc);
    fill_and_empty_twice(rt, &mut queue, &mut list, count)
}

fn fill_and_empty_twice(
    rt: &impl Abort,
    queue: &mut Queue<u64>,
    list: &mut VecDeque<u64>,
    count: u64,
) -> Result<(), AllocError> {
    for _ in 0..2 {
        push(queue, list, count)?;
        compare(rt, queue, list);
        let half = list.len() / 2;
        pop_front(rt, queue, list, half);
        compare(rt, queue, list);
        pop_back(rt, queue, list, half);
        compare(rt, queue, list);
        pop_front(rt, queue, list, 3);
        compare(rt, queue, list);
    }
    Ok(())
}

#[test]
fn a_piece_less_one_and_one_and_one_more(rt: HostRuntime) -> Result<(), Fail> {
    for count in [0, 1, 127, 128, 129, 255, 256, 257] {
        fill_and_empty(&rt, rt.alloc(), count)?;
    }
    Ok(())
}

fn wander(
    rt: &impl Abort,
    queue: &mut Queue<u64>,
    list: &mut VecDeque<u64>,
) -> Result<(), AllocError> {
    push(queue, list, 1500)?;
    for step in 0..1300 {
        push(queue, list, 3)?;
        pop_front(rt, queue, list, 2);
        pop_back(rt, queue, list, 1);
        compare_at(rt, queue, list, step);
        compare_at(rt, queue, list, list.len().saturating_sub(1));
    }
    replace(queue, list, 1100);
    compare(rt, queue, list);
    Ok(())
}

/// The first piece begins at each of its places in turn.
#[test]
fn a_queue_wanders_through_its_pieces(rt: HostRuntime) -> Result<(), Fail> {
    let mut queue = Queue::new(rt.alloc());
    let mut list = VecDeque::new(rt.alloc());
    wander(&rt, &mut queue, &mut list)?;
    Ok(())
}

/// Adds so many items, for which room is made first.
fn reserve_and_push(
    queue: &mut Queue<u64>,
    list: &mut VecDeque<u64>,
    count: u64,
    more: usize,
) -> Result<(), AllocError>
    requires { count ≤ more }
{
    queue.reserve(more)?;
    push_reserved(queue, list, count)
}

/// Adds so many items, for which there is room.
fn push_reserved(
    queue: &mut Queue<u64>,
    list: &mut VecDeque<u64>,
    count: u64,
) -> Result<(), AllocError>
    requires { count ≤ queue.old.room }
{
    for item in 0..count {
        queue.push_back_reserved(item);
        list.push_back(item)?;
    }
    Ok(())
}

fn fill_reserved(
    rt: &impl Abort,
    queue: &mut Queue<u64>,
    list: &mut VecDeque<u64>,
) -> Result<(), AllocError> {
    push(queue, list, 700)?;
    pop_front(rt, queue, list, 600);
    reserve_and_push(queue, list, 3000, 3000)?;
    compare(rt, queue, list);
    pop_back(rt, queue, list, 2000);
    reserve_and_push(queue, list, 5000, 5000)?;
    compare(rt, queue, list);
    Ok(())
}

#[test]
fn room_for_several_pieces(rt: HostRuntime) -> Result<(), Fail> {
    let mut queue = Queue::new(rt.alloc());
    let mut list = VecDeque::new(rt.alloc());
    fill_reserved(&rt, &mut queue, &mut list)?;
    Ok(())
}

fn shared<T: Send + Sync>(value: T) -> T {
    value
}

#[test]
fn a_queue_may_be_shared_between_threads(rt: HostRuntime) {
    let queue: Queue<u64> = shared(Queue::new(rt.alloc()));
    same(&rt, &queue.len(), &0);
}
