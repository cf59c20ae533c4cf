use crate::equal::{holds, same};
use crate::marks::stores::durable;
use mvo_marks::Marks;
use mvo_types::Stamp;
use std::test::Fail;

#[test]
fn both_begin_at_the_start(rt: HostRuntime) -> Result<(), Fail> {
    let (marks, _, mut seat) = Marks::new(rt.alloc(), Stamp(3))?;
    holds(&rt, marks.poll_durable(&mut seat, Stamp(3)));
    holds(&rt, !marks.poll_durable(&mut seat, Stamp(4)));
    same(&rt, &marks.poll_closed(&mut seat).0, &3);
    Ok(())
}

#[test]
fn what_is_closed_needs_not_be_durable(rt: HostRuntime) -> Result<(), Fail> {
    let (marks, _, mut seat) = Marks::new(rt.alloc(), Stamp(0))?;
    let mut other = marks.split(&mut seat);
    marks.raise_closed(&mut seat, Stamp(4));
    marks.raise_closed(&mut seat, Stamp(2));
    same(&rt, &marks.poll_closed(&mut other).0, &4);
    holds(&rt, !marks.poll_durable(&mut other, Stamp(1)));
    Ok(())
}

#[test]
fn a_fresh_seat_polls_what_was_published(rt: HostRuntime) -> Result<(), Fail> {
    let on_disk = durable(&rt, rt.alloc(), Stamp(2))?;
    let (marks, mut publisher, mut seat) = Marks::new(rt.alloc(), Stamp(0))?;
    marks.publish(&mut publisher, &on_disk);
    let mut fresh = marks.split(&mut seat);
    holds(&rt, marks.poll_durable(&mut fresh, Stamp(2)));
    holds(&rt, !marks.poll_durable(&mut fresh, Stamp(3)));
    same(&rt, &marks.poll_closed(&mut fresh).0, &2);
    marks.confirm(&mut publisher, &mut fresh);
    Ok(())
}
