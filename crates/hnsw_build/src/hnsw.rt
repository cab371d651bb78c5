//! A build in work.
ghost use Rattle.std.specs.Prelude.{◌≡◌, ◌+◌, ◌≤◌, IfOk, OnErr, false, nat_lt, if◌then◌else◌};
ghost use Rattle.ann_defs.specs.declared.limits.TheConstants.{MAX_WORDS, MAX_WORKERS};
ghost use Rattle.graph_rows.specs.View.{contents};
ghost use Rattle.graph_rows.specs.WellFormed.{IsWellFormed};
ghost use Rattle.hnsw_build.specs.Layering.{words_in};
ghost use Rattle.hnsw_build.specs.HnswBuilds.{batches_of, upper_at};
ghost use Rattle.hnsw_build.specs.HnswIndex.{hnsw_index};

use crate::batch::batch_change;
use crate::layers::Layers;
use crate::members::member_ids;
use crate::plan::HnswPlan;
use ann_shelf::{Gate, NoMemory};
use beam_search::{Scratch, posts_for};
use graph_rows::{FlatGraph, Index, Kind, Layer};
use prefix_batches::Batches;
use std::alloc::Global;
use std::marker::Model;
use std::thread::Threads;
use steal_pool::{Post, Rounds};

/// An HNSW index that is built batch by batch.
///
/// A contract sees the points, the settings and the levels, how many batches are in, and for how many workers there are
/// posts. The layers follow from these: they don't depend on the workers, nor on the pool of any step.
#[derive(Drop)]
pub struct Hnsw<'p> {
    plan: &'p HnswPlan<'p>,
    base: FlatGraph,
    // The layers from layer 1 on.
    upper: Vec<Layer>,
    batch: u32,
    // The batches after the next one, and the places of the next one in the order.
    batches: Batches,
    next: Option<(u32, u32)>,
    posts: Vec<Post<Scratch>>,
}

impl<'p> Model for Hnsw<'p> {
    ghost use Rattle.std.specs.Prelude.{length};
    ghost use Rattle.hnsw_build.specs.Building.{Building, IsBuilt};

    ghost Value = { Building };

    ghost view = { λ h. record { points = h.plan.now.points.now.vectors; settings = h.plan.now.settings; levels = h.plan.now.levels.items; batch = h.batch; workers = length h.posts.items } };

    ghost invariant = { λ h. IsBuilt h.plan.now.points.now.vectors h.plan.now.settings h.plan.now.levels.items h.batch h.base h.upper.items h.batches h.next h.posts.items };
}

impl<'p> Hnsw<'p> {
    /// The build before its first batch: all rows of all layers are empty.
    ///
    /// All memory of the layers and of the workers' searches is taken here: 4 bytes for each of the plan's words and
    /// for each id of the layers above the first, and for each worker a scratch.
    pub fn new(alloc: Global, plan: &'p HnswPlan<'p>, workers: u32) -> Result<Hnsw<'p>, NoMemory>
        requires words { words_in plan.now.levels.items plan.now.settings.degree ≤ MAX_WORDS }
        requires workers { (1 ≤ workers) × (workers ≤ MAX_WORKERS) }
        ensures { IfOk result (λ h. h ≡ record { points = plan.now.points.now.vectors; settings = plan.now.settings; levels = plan.now.levels.items; batch = 0; workers = workers }) }
    {
        let degree = plan.settings.degree;
        let base = FlatGraph::new(alloc, plan.points.count(), degree + degree)?;
        let upper = empty_layers(alloc, plan)?;
        let posts = posts_for(alloc, plan.points, plan.settings.beam, workers)?;
        let mut batches = Batches::new(plan.points.count(), plan.cap);
        let next = batches.next();
        Ok(Hnsw {
            plan,
            base,
            upper,
            batch: 0,
            batches,
            next,
            posts,
        })
    }

    /// How many batches are in.
    pub fn batch(&self) -> u32
        ensures value { result ≡ self.now.batch }
        ensures bound { result ≤ batches_of self.now.points self.now.settings }
    {
        self.batch
    }

    /// How many batches there are.
    pub fn total(&self) -> u32
        ensures value { result ≡ batches_of self.now.points self.now.settings }
        ensures some { 1 ≤ result }
    {
        self.batches.total()
    }

    /// Inserts the next batch, and returns whether there was one: false exactly where all batches are in.
    ///
    /// The pool has as many workers as the build was made for. The new rows of the batch are searched and pruned in
    /// the layers before it, in rounds of at most 4,096 points with a task for each; then each layer's targets of
    /// reverse edges get their merged rows, in a round for each layer; and last all layers change, without taking
    /// memory. `gate.batch(v)` is called before, with the number of the batch. It fails with `NoMemory`, which leaves
    /// the layers and the number of batches as they were: the step may be tried again.
    pub fn step<R: Threads + Sync, P: Rounds, G: Gate + Sync>(
        &mut self,
        rt: &R,
        alloc: Global,
        pool: &mut P,
        gate: &G,
    ) -> Result<bool, NoMemory>
        requires { P.count pool.old ≡ self.old.workers }
        ensures ended { self.old.batch ≡ batches_of self.old.points self.old.settings → result ≡ Ok false }
        ensures more { IfOk result (λ more. more ≡ nat_lt self.old.batch (batches_of self.old.points self.old.settings)) }
        ensures batch { IfOk result (λ more. self.new ≡ (if more then record self.old { batch = self.old.batch + 1 } else self.old)) }
        ensures err { OnErr result (self.new ≡ self.old) }
        ensures workers { P.count pool.new ≡ P.count pool.old }
    {
        let Some((from, to)) = self.next else {
            return Ok(false);
        };
        gate.batch(self.batch + 1);
        let layers = Layers {
            plan: self.plan,
            done: self.batch,
            base: &self.base,
            upper: self.upper.as_slice(),
        };
        let change = batch_change(
            rt,
            alloc,
            pool,
            &layers,
            from,
            to,
            self.posts.as_mut_slice(),
            gate,
        )?;
        change.put_into(&mut self.base, self.upper.as_mut_slice());
        self.batch += 1;
        self.next = self.batches.next();
        Ok(true)
    }

    /// The finished index: kind HNSW, a layer for each level, and the entry point as its start. All batches are in.
    /// Takes no memory.
    pub fn into_index(self) -> Index
        requires { self.batch ≡ batches_of self.points self.settings }
        ensures contents { contents result ≡ hnsw_index self.entry.points self.entry.settings self.entry.levels }
        ensures well_formed { IsWellFormed (contents result) }
    {
        Index {
            kind: Kind::Hnsw,
            count: self.plan.points.count(),
            dim: self.plan.points.dim(),
            degree: self.plan.settings.degree,
            start: self.plan.start(),
            base: self.base,
            upper: self.upper,
            stamp: None,
        }
    }
}

// The layers above the first, from layer 1 on, with empty rows.
fn empty_layers(alloc: Global, plan: &HnswPlan) -> Result<Vec<Layer>, NoMemory>
    requires { words_in plan.now.levels.items plan.now.settings.degree ≤ MAX_WORDS }
    ensures { IfOk result (λ v. v.items ≡ upper_at plan.now.points.now.vectors plan.now.settings plan.now.levels.items 0) }
{
    let mut layers = Vec::with_capacity(alloc, plan.top() as usize)?;
    for layer in 1..plan.top() + 1 {
        let ids = member_ids(alloc, plan.levels.as_slice(), layer)?;
        layers.push(Layer::new(alloc, ids, plan.settings.degree)?)?;
    }
    Ok(layers)
}
