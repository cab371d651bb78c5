//! Callers and builder side by side: one waits for the other, and neither in vain.
use crate::live::{batches_of, is_done, session};
use crate::waiting::comes;
use ann_shelf::Gate;
use std::alloc::Global;
use std::sync::Wait;
use std::sync::atomic::{AtomicU64, Ordering};
use std::thread::Threads;

/// The batches of the two live lines of a session at this gate, where it is done.
fn batches_at<R: Threads + Wait + Sync, G: Gate + Sync>(
    rt: &R,
    alloc: Global,
    callers: u32,
    gate: &G,
) -> Option<(u32, u32)> {
    let ended = session(rt, alloc, "steal", callers, gate).ok()?;
    if is_done(&ended) {
        batches_of(&ended)
    } else {
        None
    }
}

/// A gate at which the last batch waits until query 0 is answered.
#[derive(Drop)]
struct LateBatch {
    answered: AtomicU64,
    vain: AtomicU64,
}

impl Gate for LateBatch {
    fn task(&self, _worker: u32, _task: u32) {}

    fn batch(&self, v: u32) {
        if v == 3 && !comes(&self.answered) {
            self.vain.store(1, Ordering::SeqCst);
        }
    }

    fn answer(&self, query: u32) {
        if query == 0 {
            self.answered.store(1, Ordering::SeqCst);
        }
    }
}

/// Whether so many callers answer query 0 before the last batch begins, which doesn't wait in vain.
fn is_answered_before<R: Threads + Wait + Sync>(rt: &R, alloc: Global, callers: u32) -> bool {
    let gate = LateBatch {
        answered: AtomicU64::new(0),
        vain: AtomicU64::new(0),
    };
    let batches = batches_at(rt, alloc, callers, &gate);
    gate.vain.load(Ordering::SeqCst) == 0
        && match batches {
            Some((first, _)) => first <= 2,
            None => false,
        }
}

#[test]
fn a_query_is_answered_while_the_last_batch_waits(rt: HostRuntime) {
    for callers in [1u32, 2] {
        assert!(rt; is_answered_before(&rt, rt.alloc(), callers), "{callers}");
    }
}

/// A gate at which the caller waits after query 0 until the last batch begins.
#[derive(Drop)]
struct LateCaller {
    begun: AtomicU64,
    vain: AtomicU64,
}

impl Gate for LateCaller {
    fn task(&self, _worker: u32, _task: u32) {}

    fn batch(&self, v: u32) {
        if v == 3 {
            self.begun.store(1, Ordering::SeqCst);
        }
    }

    fn answer(&self, query: u32) {
        if query == 0 && !comes(&self.begun) {
            self.vain.store(1, Ordering::SeqCst);
        }
    }
}

/// Whether a caller that asks again once batch 3 has begun finds batch 2, and doesn't wait in vain.
fn finds_the_one_before<R: Threads + Wait + Sync>(rt: &R, alloc: Global) -> bool {
    let gate = LateCaller {
        begun: AtomicU64::new(0),
        vain: AtomicU64::new(0),
    };
    let batches = batches_at(rt, alloc, 1, &gate);
    gate.vain.load(Ordering::SeqCst) == 0
        && match batches {
            Some((_, second)) => second >= 2,
            None => false,
        }
}

#[test]
fn a_batch_is_published_before_the_next_begins(rt: HostRuntime) {
    assert!(rt; finds_the_one_before(&rt, rt.alloc()));
}
