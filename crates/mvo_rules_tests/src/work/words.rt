use crate::equal::same;
use crate::numbers::Numbers;
use mvo_chain::VersionNo;
use mvo_work::{WordPlace, Writes};
use std::alloc::{AllocError, Global};
use std::process::Abort;
use std::test::Fail;

fn some_word(numbers: &mut Numbers) -> WordPlace {
    let number = VersionNo(numbers.below(1000).min(1000) as u32);
    match numbers.below(2) {
        0 => WordPlace::Begin(number),
        _ => WordPlace::End(number),
    }
}

/// Puts one word or two on both.
fn put(
    numbers: &mut Numbers,
    writes: &mut Writes,
    plain: &mut Vec<WordPlace>,
) -> Result<(), AllocError> {
    writes.make_room()?;
    let first = some_word(numbers);
    plain.push(first)?;
    writes.push_word(first);
    if numbers.below(2) == 0 {
        let second = some_word(numbers);
        plain.push(second)?;
        writes.push_word(second);
    }
    Ok(())
}

/// Both have the same words.
fn assert_same(rt: &impl Abort, writes: &Writes, plain: &[WordPlace]) {
    same(rt, &writes.word_count(), &plain.len());
    same(rt, &writes.next_word(), &plain.first().copied());
    let last = plain.len().saturating_sub(1);
    same(rt, &writes.word_at(last), &plain.last().copied());
}

/// Takes the words off one after another.
fn words_of(alloc: Global, writes: &mut Writes) -> Result<Vec<WordPlace>, AllocError> {
    let mut words = Vec::new(alloc);
    for _ in 0..writes.word_count() {
        if let Some(word) = writes.next_word() {
            words.push(word)?;
        }
        writes.drop_word();
    }
    Ok(words)
}

fn drop_first(plain: &mut Vec<WordPlace>) {
    if !plain.is_empty() {
        plain.remove(0);
    }
}

/// Words are put on both, and at times one is dropped.
fn step_on_both(
    rt: &impl Abort,
    numbers: &mut Numbers,
    writes: &mut Writes,
    plain: &mut Vec<WordPlace>,
) -> Result<(), Fail> {
    put(numbers, writes, plain)?;
    if numbers.below(4) == 0 {
        writes.drop_word();
        drop_first(plain);
    }
    assert_same(rt, writes, plain);
    Ok(())
}

/// Words are taken one after another, and none is left.
fn take_words(
    rt: &impl Abort,
    alloc: Global,
    writes: &mut Writes,
    plain: &[WordPlace],
) -> Result<(), Fail> {
    let words = words_of(alloc, writes)?;
    same(rt, &words.as_slice(), &plain);
    same(rt, &writes.next_word(), &None);
    Ok(())
}

#[test]
fn random_words_are_those_of_a_plain_list(rt: HostRuntime) -> Result<(), Fail> {
    let numbers = &mut Numbers::new();
    let writes = &mut Writes::new(rt.alloc());
    let plain = &mut Vec::new(rt.alloc());
    for _ in 0..400 {
        step_on_both(&rt, numbers, writes, plain)?;
    }
    take_words(&rt, rt.alloc(), writes, plain)
}
