//! Calls for each element of a slice, in threads that one thread starts.
//!
//! Where two threads start others at the same moment, the new ones often share a processor for a while, though another is
//! idle. So all are started from here, one after another.
ghost use Rattle.std.specs.Prelude.{◌≡◌, ◌<◌, ◌+◌, ◌^◌, length};
ghost use denote.Param.Send.{IsSync, IsSend};
ghost use Rattle.std.specs.Fork.{AcceptsAt, ChangesAt};
ghost use Rattle.steal_pool.specs.Fork.{AcceptsFrom, ChangesFrom};

use std::thread::{Threads, join_mut};

// Calls f with each element and its place, where the slice begins at place `base` of the whole one: the last from this
// thread, each other in one of its own where one can be made.
#[cycle(calls)]
pub(crate) fn for_each_from<R: Threads + Sync, T: Send, F: Fn(usize, &mut T) + Sync>(
    rt: &R,
    f: &F,
    base: usize,
    s: &mut [T],
)
    requires some { 0 < length s.old }
    requires room { base + length s.old < 2 ^ 64 }
    requires accepts { AcceptsFrom (AcceptsAt F.Fn f.now) base s.old }
    ensures { ChangesFrom (ChangesAt F.Fn f.now) base s.old s.new }
{
    if s.len() == 1 {
        at_one(f, base, &mut s[0]);
        return;
    }
    let (one, rest) = s.split_at_mut(1);
    call_beside(rt, f, base, one, base + 1, rest);
}

// Calls f for one element in a thread that is started from here, and for the others beside it.
#[cycle(calls)]
fn call_beside<R: Threads + Sync, T: Send, F: Fn(usize, &mut T) + Sync>(
    rt: &R,
    f: &F,
    base: usize,
    one: &mut [T],
    next: usize,
    rest: &mut [T],
)
    requires single { length one.old ≡ 1 }
    requires some { 0 < length rest.old }
    requires room { (base + 1 < 2 ^ 64) × (next + length rest.old < 2 ^ 64) }
    requires first { AcceptsFrom (AcceptsAt F.Fn f.now) base one.old }
    requires others { AcceptsFrom (AcceptsAt F.Fn f.now) next rest.old }
    ensures first { ChangesFrom (ChangesAt F.Fn f.now) base one.old one.new }
    ensures others { ChangesFrom (ChangesAt F.Fn f.now) next rest.old rest.new }
{
    let mut own = ||
        requires { IsSync R.row × IsSync F.row × IsSend T.row × (length one.now ≡ 1) × (base + 1 < 2 ^ 64) × AcceptsFrom (AcceptsAt F.Fn f.now) base one.now }
        ensures { ChangesFrom (ChangesAt F.Fn f.entry.now) base one.entry.now one.exit.now }
    { for_each_from(rt, f, base, one) };
    let mut others = ||
        requires { IsSync R.row × IsSync F.row × IsSend T.row × (0 < length rest.now) × (next + length rest.now < 2 ^ 64) × AcceptsFrom (AcceptsAt F.Fn f.now) next rest.now }
        ensures { ChangesFrom (ChangesAt F.Fn f.entry.now) next rest.entry.now rest.exit.now }
    { for_each_from(rt, f, next, rest) };
    join_mut(rt, &mut own, &mut others);
}

// Calls f with one element and its place.
fn at_one<T, F: Fn(usize, &mut T)>(f: &F, place: usize, element: &mut T)
    requires { AcceptsAt F.Fn f.now place element.old }
    ensures { ChangesAt F.Fn f.now place element.old element.new }
{
    f(place, element);
}
