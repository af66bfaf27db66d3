//! Transactions with one operation too many.

use super::*;

// Makes operations as one transaction of a new store that has a map with 256 buckets, and so many
// nodes a lane. It ends and replies so, and leaves nothing.
fn alone<R: Abort + AllocGlobal>(rt: &R, nodes: u32, ops: &[Op], want: Wanted<'_>) {
    let shape = Shape::new(2, nodes, 1, 4, 1, 256, 1).expect(rt, "a shape");
    let (store, mut pass) = opened(rt, shape, &pairs(rt, &[]));
    are_told(rt, &store, &mut pass.pass, ops, want);
    closes_with(rt, store, pass, &[]);
}

#[test]
fn a_transaction_looks_at_128_absent_keys(rt: HostRuntime) {
    let mut ops = Vec::new(rt.alloc());
    for key in 1..130 {
        ops.push(get(key)).expect(&rt, "memory");
    }
    let end = Stop::Limit(Limit::Reads);
    let mut want: [Told; 129] = [Ok(Reply::Value(None)); 129];
    want[128] = Err(end);
    alone(&rt, 16, &ops, fails(&want, end));
}

#[test]
fn a_transaction_inserts_128_keys(rt: HostRuntime) {
    let mut ops = Vec::new(rt.alloc());
    for key in 1..130 {
        ops.push(insert(key, key + 1)).expect(&rt, "memory");
    }
    let end = Stop::Limit(Limit::Writes);
    let mut want: [Told; 129] = [Ok(Reply::Flag(true)); 129];
    want[128] = Err(end);
    alone(&rt, 192, &ops, fails(&want, end));
}

#[test]
fn a_lane_enqueues_as_many_values_as_it_has_nodes(rt: HostRuntime) {
    let (store, mut a, b) = divided(&rt, &[]);
    let end = Stop::Limit(Limit::Nodes);
    let mut want: [Told; 17] = [Ok(Reply::Nothing); 17];
    want[16] = Err(end);
    let ops = [enqueue(7); 17];
    are_told(&rt, &store, &mut a.pass, &ops, fails(&want, end));
    ends_with(&rt, store, a, b, &[(3, 30)]);
}

#[test]
fn a_lane_with_one_attempt_begins_no_other(rt: HostRuntime) {
    let shape = Shape::new(2, 16, 1, 1, 1, 64, 1).expect(&rt, "a shape");
    let (store, mut a) = opened(&rt, shape, &pairs(&rt, &[]));
    let _b = halved(&rt, &store, &mut a);
    let plan = Plan {
        tag: 5,
        ops: &[],
        way: Way::Stop,
    };
    let mut told = Vec::new(rt.alloc());
    let end = all(&rt, &store, &mut a.pass, &plan, &mut told);
    same(&rt, &end, &Ok(false));
    let again = match Store::begin(&mut a.pass, &store, 6) {
        Ok(_) => None,
        Err(limit) => Some(limit),
    };
    same(&rt, &again, &Some(Limit::Tries));
}
