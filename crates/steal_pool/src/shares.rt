//! A round by fixed shares, one for each post.
ghost use Rattle.std.specs.Prelude.{◌≡◌, ◌+◌, ◌<◌, ◌≤◌, ◌++◌, [], length, map, vec_len, vec_capacity, All, IfOk, OnOk};
ghost use Rattle.steal_pool.specs.Shares.{share_start, IsShare, HasShare, HasDone, EachFrom};
ghost use Rattle.steal_pool.specs.Work.{AllServe, scratch_of};

use crate::post::Post;
use crate::tasks::run_tasks;
use crate::work::Work;
use ann_defs::MAX_WORKERS;
use ann_shelf::{Gate, NoMemory};
use rayon::slice::par_for_each_mut;
use std::alloc::Global;
use std::thread::Threads;
use steal_table::{Blocks, blank_blocks};

// Runs the tasks, the share of each post in a thread of its own where there is one.
pub(crate) fn run_shares<R: Threads + Sync, W: Work, G: Gate + Sync>(
    rt: &R,
    alloc: Global,
    work: &W,
    posts: &mut [Post<W::Scratch>],
    gate: &G,
) -> Result<Blocks, NoMemory>
    requires workers { (0 < length posts.old) × (length posts.old ≤ MAX_WORKERS) }
    requires serve { AllServe (W.serves work.now) posts.old }
    ensures blocks { IfOk result (λ b. b ≡ W.want work.now) }
    ensures serve { AllServe (W.serves work.now) posts.new }
{
    let mut blocks = Vec::with_capacity(alloc, work.tasks() as usize)?;
    if hand_out(alloc, work, posts).is_err() {
        take_back(work, posts);
        return Err(NoMemory);
    }
    run_posts(rt, work, posts, gate);
    gather(work, posts, &mut blocks);
    Ok(Blocks::of(blocks))
}

// The first task of a worker's share.
pub(crate) fn first_task(tasks: u32, workers: u32, worker: u32) -> u32
    requires { (worker ≤ workers) × (0 < workers) × (workers ≤ MAX_WORKERS) }
    ensures start { result ≡ share_start tasks workers worker }
    ensures within { result ≤ tasks }
{
    (u64::from(worker) * u64::from(tasks) / u64::from(workers)) as u32
}

// The blank blocks of a worker's share.
fn blank_share<W: Work>(
    alloc: Global,
    work: &W,
    workers: u32,
    worker: u32,
) -> Result<Vec<Vec<u32>>, NoMemory>
    requires { (worker < workers) × (workers ≤ MAX_WORKERS) }
    ensures share { IfOk result (λ v. IsShare (length (W.want work.now)) workers worker v.items) }
    ensures wide { IfOk result (λ v. All (λ y. length y.items ≡ W.wide work.now) v.items) }
{
    let from = first_task(work.tasks(), workers, worker);
    let to = first_task(work.tasks(), workers, worker + 1);
    blank_blocks(alloc, to - from, work.width() as usize)
}

// Gives each post the blank blocks of its share. A refusal leaves some posts without.
fn hand_out<W: Work>(
    alloc: Global,
    work: &W,
    posts: &mut [Post<W::Scratch>],
) -> Result<(), NoMemory>
    requires workers { (0 < length posts.old) × (length posts.old ≤ MAX_WORKERS) }
    requires serve { AllServe (W.serves work.now) posts.old }
    ensures shares { OnOk result (EachFrom 0 (HasShare (length (W.want work.now)) (W.wide work.now) (length posts.old)) posts.new) }
    ensures serve { AllServe (W.serves work.now) posts.new }
{
    let workers = posts.len() as u32;
    for worker in 0..workers {
        let share = blank_share(alloc, work, workers, worker)?;
        posts[worker as usize].share = Some(share);
    }
    Ok(())
}

// Leaves each post without blocks.
fn take_back<W: Work>(_work: &W, posts: &mut [Post<W::Scratch>])
    requires { AllServe (W.serves _work.now) posts.old }
    ensures { AllServe (W.serves _work.now) posts.new }
{
    for post in posts.iter_mut() {
        post.share = None;
    }
}

// Runs the share of one post.
fn run_post<W: Work, G: Gate>(
    work: &W,
    post: &mut Post<W::Scratch>,
    workers: u32,
    worker: u32,
    gate: &G,
)
    requires worker { (worker < workers) × (workers ≤ MAX_WORKERS) }
    requires share { HasShare (length (W.want work.now)) (W.wide work.now) workers worker post.old }
    requires serves { W.serves work.now (scratch_of post.old) }
    ensures done { HasDone (W.want work.now) workers worker post.new }
    ensures serves { W.serves work.now (scratch_of post.new) }
{
    let from = first_task(work.tasks(), workers, worker);
    let Some(share) = &mut post.share else {
        unreachable!()
    };
    run_tasks(
        work,
        &mut post.scratch,
        worker,
        from,
        share.as_mut_slice(),
        gate,
    );
}

// Runs the share of each post.
fn run_posts<R: Threads + Sync, W: Work, G: Gate + Sync>(
    rt: &R,
    work: &W,
    posts: &mut [Post<W::Scratch>],
    gate: &G,
)
    requires workers { (0 < length posts.old) × (length posts.old ≤ MAX_WORKERS) }
    requires shares { EachFrom 0 (HasShare (length (W.want work.now)) (W.wide work.now) (length posts.old)) posts.old }
    requires serve { AllServe (W.serves work.now) posts.old }
    ensures done { EachFrom 0 (HasDone (W.want work.now) (length posts.old)) posts.new }
    ensures serve { AllServe (W.serves work.now) posts.new }
{
    let workers = posts.len() as u32;
    par_for_each_mut(
        rt,
        posts,
        |i: usize, post: &mut Post<W::Scratch>|
            requires { (i < workers) × (workers ≤ MAX_WORKERS) × HasShare (length (W.want work.now)) (W.wide work.now) workers i post.now × W.serves work.now (scratch_of post.now) }
            ensures { HasDone (W.want work.entry.now) workers i post.exit.now × W.serves work.entry.now (scratch_of post.exit.now) }
        { run_post(work, post, workers, i as u32, gate) },
    );
}

// Appends a share, for which there is room.
fn take_over(blocks: &mut Vec<Vec<u32>>, mut share: Vec<Vec<u32>>)
    requires { vec_len blocks.old + vec_len share ≤ vec_capacity blocks.old }
    ensures items { blocks.new.items ≡ blocks.old.items ++ share.items }
    ensures capacity { vec_capacity blocks.old ≤ vec_capacity blocks.new }
{
    let _ = blocks.append(&mut share);
}

// Takes the blocks of all shares, in their order. There is room for them.
fn gather<W: Work>(work: &W, posts: &mut [Post<W::Scratch>], blocks: &mut Vec<Vec<u32>>)
    requires workers { 0 < length posts.old }
    requires room { (blocks.old.items ≡ []) × (length (W.want work.now) ≤ vec_capacity blocks.old) }
    requires done { EachFrom 0 (HasDone (W.want work.now) (length posts.old)) posts.old }
    requires serve { AllServe (W.serves work.now) posts.old }
    ensures blocks { map (λ y. y.items) blocks.new.items ≡ W.want work.now }
    ensures serve { AllServe (W.serves work.now) posts.new }
{
    for post in posts.iter_mut() {
        let Some(share) = post.share.take() else {
            unreachable!()
        };
        take_over(blocks, share);
    }
}
