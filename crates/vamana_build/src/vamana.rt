//! A build in work.
ghost use Rattle.std.specs.Prelude.{◌≡◌, ◌+◌, ◌<◌, ◌≤◌, IfOk, IfSome, OnErr, IfNone};
ghost use Rattle.ann_defs.specs.declared.limits.TheConstants.{MAX_WORKERS};
ghost use Rattle.graph_rows.specs.View.{contents};
ghost use Rattle.graph_rows.specs.WellFormed.{IsWellFormed};
ghost use Rattle.vamana_build.specs.Builds.{batches_of, graph_at};
ghost use Rattle.vamana_build.specs.Changes.{change_at};
ghost use Rattle.vamana_build.specs.VamanaIndex.{vamana_index};

use crate::change::BatchChange;
use crate::places::next_places;
use crate::plan::Plan;
use crate::step::change_of;
use ann_shelf::{Gate, NoMemory};
use beam_search::{Scratch, posts_for};
use graph_rows::{FlatGraph, Index, Kind, Layer};
use prefix_batches::Batches;
use std::alloc::Global;
use std::marker::Model;
use std::thread::Threads;
use steal_pool::{Post, Rounds};

/// A Vamana graph that is built batch by batch.
///
/// A contract sees the points and the settings, how many batches are in, and for how many workers there are posts. The
/// graph follows from these: it doesn't depend on the workers, nor on the pool of any step.
#[derive(Drop)]
pub struct Vamana<'p> {
    plan: &'p Plan<'p>,
    graph: FlatGraph,
    // How many ids at the front of each row one prune left together: a later one doesn't test these against each other.
    settled: Vec<u8>,
    batch: u32,
    // The batches of a pass after the next one, and the places of the next one in the order.
    batches: Batches,
    next: Option<(u32, u32)>,
    posts: Vec<Post<Scratch>>,
    // A Vamana index has no layer above its graph.
    upper: Vec<Layer>,
}

impl<'p> Model for Vamana<'p> {
    ghost use Rattle.std.specs.Prelude.{◌≡◌, [], length};
    ghost use Rattle.ann_defs.specs.Graph.{row_in};
    ghost use Rattle.vamana_build.specs.Builds.{build_at, rows_at};
    ghost use Rattle.vamana_build.specs.Building.{Building, IsBuilt};
    ghost use Rattle.vamana_build.specs.Settled.{AreSettled};

    ghost Value = { Building };

    ghost view = { λ v. record { points = v.plan.now.points.now.vectors; settings = v.plan.now.settings; batch = v.batch; workers = length v.posts.items } };

    ghost invariant = { λ v. IsBuilt v.plan.now.points.now.vectors v.plan.now.settings v.batch v.graph v.batches v.next v.posts.items × (v.upper.items ≡ []) × AreSettled (build_at v.plan.now.points.now.vectors v.plan.now.settings v.batch) (row_in (rows_at v.plan.now.points.now.vectors v.plan.now.settings v.batch)) v.settled.items };
}

impl<'p> Vamana<'p> {
    /// The build before its first batch: all rows are empty.
    ///
    /// All memory of the graph and of the workers' searches is taken here: 4 bytes for each of the points' `degree + 1`
    /// words, a byte for each point, and for each worker a scratch.
    pub fn new(alloc: Global, plan: &'p Plan<'p>, workers: u32) -> Result<Vamana<'p>, NoMemory>
        requires { (1 ≤ workers) × (workers ≤ MAX_WORKERS) }
        ensures { IfOk result (λ v. v ≡ record { points = plan.now.points.now.vectors; settings = plan.now.settings; batch = 0; workers = workers }) }
    {
        let graph = FlatGraph::new(alloc, plan.points.count(), plan.settings.degree)?;
        let settled = vec![in alloc; 0u8; plan.points.count() as usize]?;
        let posts = posts_for(alloc, plan.points, plan.settings.beam, workers)?;
        let mut batches = Batches::new(plan.points.count(), plan.cap);
        let next = batches.next();
        Ok(Vamana {
            plan,
            graph,
            settled,
            batch: 0,
            batches,
            next,
            posts,
            upper: Vec::new(alloc),
        })
    }

    /// The graph after the batches so far. Its width is the settings' degree.
    pub fn graph(&self) -> &FlatGraph
        ensures { result.now ≡ graph_at self.now.points self.now.settings self.now.batch }
    {
        &self.graph
    }

    /// How many batches are in.
    pub fn batch(&self) -> u32
        ensures value { result ≡ self.now.batch }
        ensures bound { result ≤ batches_of self.now.points self.now.settings }
    {
        self.batch
    }

    /// How many batches there are, in all passes.
    pub fn total(&self) -> u32
        ensures value { result ≡ batches_of self.now.points self.now.settings }
        ensures some { 1 ≤ result }
    {
        self.plan.settings.passes * self.batches.total()
    }

    /// Puts the next batch in, and returns the rows that it changed, or None where all batches are in.
    ///
    /// The pool has as many workers as the build was made for. The new rows of the batch are searched and pruned in
    /// the graph before it, in one round with a task for each point; in a second round each target of their reverse
    /// edges gets its merged row; and then the graph changes, without taking memory. `gate.batch(v)` is called before,
    /// with the number of the batch. Fails only with `NoMemory`, and then graph and number of batches are as before: the
    /// step may be tried again.
    pub fn step<R: Threads + Sync, P: Rounds, G: Gate + Sync>(
        &mut self,
        rt: &R,
        alloc: Global,
        pool: &mut P,
        gate: &G,
    ) -> Result<Option<BatchChange>, NoMemory>
        requires { P.count pool.old ≡ self.old.workers }
        ensures ended { self.old.batch ≡ batches_of self.old.points self.old.settings → result ≡ Ok None }
        ensures none { IfOk result (λ o. IfNone o ((self.old.batch ≡ batches_of self.old.points self.old.settings) × (self.new ≡ self.old))) }
        ensures some { IfOk result (λ o. IfSome o (λ c. (self.old.batch < batches_of self.old.points self.old.settings)
            × (c ≡ change_at self.old.points self.old.settings self.old.batch)
            × (self.new ≡ record self.old { batch = self.old.batch + 1 }))) }
        ensures err { OnErr result (self.new ≡ self.old) }
        ensures workers { P.count pool.new ≡ P.count pool.old }
    {
        let Some((from, to)) = self.next else {
            return Ok(None);
        };
        let pass = self.batches.total();
        let total = self.plan.settings.passes * pass;
        gate.batch(self.batch + 1);
        let change = change_of(
            rt,
            alloc,
            pool,
            self.plan,
            self.batch,
            pass,
            from,
            to,
            &self.graph,
            self.settled.as_mut_slice(),
            self.posts.as_mut_slice(),
            gate,
        )?;
        change.put_into(&mut self.graph);
        self.batch += 1;
        self.next = next_places(self.plan, &mut self.batches, self.batch, total);
        Ok(Some(change))
    }

    /// The finished index: kind Vamana, one layer, and the first of the order as its start. All batches are in.
    /// Takes no memory.
    pub fn into_index(self) -> Index
        requires { self.batch ≡ batches_of self.points self.settings }
        ensures contents { contents result ≡ vamana_index self.entry.points self.entry.settings }
        ensures well_formed { IsWellFormed (contents result) }
    {
        Index {
            kind: Kind::Vamana,
            count: self.plan.points.count(),
            dim: self.plan.points.dim(),
            degree: self.plan.settings.degree,
            start: self.plan.start(),
            base: self.graph,
            upper: self.upper,
            stamp: None,
        }
    }
}
