use crate::equal::same;
use mvo_types::{Stamp, TxId};
use mvo_word::{Held, Word};

#[test]
fn a_word_reads_as_what_was_put_in(rt: HostRuntime) {
    for stamp in [0, 1, 7, 1 << 62, (1 << 63) - 2] {
        same(
            &rt,
            &Word::stamp(Stamp(stamp)).read(),
            &Held::At(Stamp(stamp)),
        );
    }
    for id in [0, 1, 7, 1 << 62, (1 << 63) - 1] {
        same(&rt, &Word::id(TxId(id)).read(), &Held::By(TxId(id)));
    }
    same(&rt, &Word::INFINITY.read(), &Held::Infinity);
}

#[test]
fn a_word_takes_eight_bytes(rt: HostRuntime) {
    same(&rt, &size_of::<Word>(), &8);
}
