//! A transaction with what another pass does after its first operations.

ghost use Rattle.md_store.specs.Store.{IsPassOf};

use super::*;

// A transaction of a pass. After its operations `before` another pass makes one operation, if any,
// as a transaction of its own, and it replies so. Then words have these values. The operations
// `after` follow, and the transaction ends.
#[derive(Clone, Copy)]
pub(super) struct Script<'a> {
    pub(super) tag: u64,
    pub(super) before: &'a [Op],
    pub(super) between: Option<(Op, Reply)>,
    pub(super) words: &'a [(u32, u64)],
    pub(super) after: &'a [Op],
    pub(super) way: Way,
}

// Makes the operation of the other pass, if any.
fn overtakes<R: Abort + AllocGlobal>(
    rt: &R,
    store: &Store,
    pass: &mut Pass<StoreTheory>,
    between: Option<(Op, Reply)>,
)
    requires { IsPassOf store.now pass.old }
    ensures { IsPassOf store.now pass.new }
{
    if let Some((op, reply)) = between {
        replies(rt, store, pass, op, reply);
    }
}

// What the other pass does, and the words that it sees then.
fn between<R: Abort + AllocGlobal>(
    rt: &R,
    store: &Store,
    pass: &mut Pass<StoreTheory>,
    script: &Script<'_>,
)
    requires { IsPassOf store.now pass.old }
    ensures { IsPassOf store.now pass.new }
{
    overtakes(rt, store, pass, script.between);
    show(rt, store, pass, script.words);
}

// Makes the transaction, with what the other pass does. Keeps what its operations were told.
fn overlapped<R: Abort + AllocGlobal>(
    rt: &R,
    store: &Store,
    pass: &mut Pass<StoreTheory>,
    other: &mut Pass<StoreTheory>,
    script: &Script<'_>,
    told: &mut Vec<Told>,
) -> Ended
    requires of { IsPassOf store.now pass.old }
    requires of_other { IsPassOf store.now other.old }
    ensures of { IsPassOf store.now pass.new }
    ensures of_other { IsPassOf store.now other.new }
{
    let mut sets = Sets::new();
    let mut txn = begun(rt, store, pass, script.tag, &mut sets);
    let mut why = None;
    all_in(rt, &mut txn, &mut why, store, script.before, told);
    between(rt, store, other, script);
    all_in(rt, &mut txn, &mut why, store, script.after, told);
    end_by(txn, why, store, script.way)
}

// Makes the transaction. Its operations are told this, and it ends so.
pub(super) fn overlap<R: Abort + AllocGlobal>(
    rt: &R,
    store: &Store,
    pass: &mut Pass<StoreTheory>,
    other: &mut Pass<StoreTheory>,
    script: &Script<'_>,
    want: Wanted<'_>,
)
    requires of { IsPassOf store.now pass.old }
    requires of_other { IsPassOf store.now other.old }
    ensures of { IsPassOf store.now pass.new }
    ensures of_other { IsPassOf store.now other.new }
{
    let mut told = Vec::new(rt.alloc());
    let end = overlapped(rt, store, pass, other, script, &mut told);
    are_same(rt, told.as_slice(), end, want);
}
