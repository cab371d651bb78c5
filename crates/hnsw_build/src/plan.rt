//! What is decided before the first batch.
ghost use Rattle.std.specs.Prelude.{◌≡◌, ◌<◌, ◌≤◌, ◌==◌, ℕ, count_by, length, IfOk, IfSome};
ghost use Rattle.ann_defs.specs.declared.limits.TheConstants.{MAX_BEAM, MAX_POINTS};
ghost use Rattle.std.specs.List.{All};
ghost use Rattle.seeded_order.specs.Levels.{levels_of};
ghost use Rattle.hnsw_build.specs.Layering.{words_in, top_of, entry_first};
ghost use Rattle.hnsw_build.specs.HnswBuilds.{order_of, start_of, batch_cap};

use crate::entry::entry_point;
use crate::members::members;
use crate::settings::HnswSettings;
use ann_defs::StartKind;
use ann_shelf::NoMemory;
use bin_files::Points;
use prefix_batches::cap_for;
use seeded_order::{first_to_front, insertion_order_of, levels};
use std::alloc::Global;

/// A point set with settings in range, a level for each point, the order of insertion and the cap of the batches.
///
/// The first of the order is the entry point, the first point of greatest level. Order and cap are those of the points,
/// the settings and the levels.
#[derive(Drop)]
pub struct HnswPlan<'p> {
    pub points: &'p Points,
    pub levels: Vec<u8>,
    pub order: Vec<u32>,
    pub cap: u32,
    pub settings: HnswSettings,
    pub ghost count: { (1 ≤ length points.now.vectors) × (length points.now.vectors ≤ MAX_POINTS) },
    pub ghost degree: { (1 ≤ settings.degree) × (settings.degree ≤ 64) },
    pub ghost beam: { (1 ≤ settings.beam) × (settings.beam ≤ MAX_BEAM) },
    pub ghost bits: { (1 ≤ settings.bits) × (settings.bits ≤ 8) },
    pub ghost highest: { settings.max_level ≤ 15 },
    pub ghost levelled: { length levels.items ≡ length points.now.vectors },
    pub ghost low: { All (λ level. level ≤ 15) levels.items },
    pub ghost ordered: { order.items ≡ order_of points.now.vectors settings levels.items },
    pub ghost whole: { length order.items ≡ length points.now.vectors },
    pub ghost inside: { All (λ p. p < length points.now.vectors) order.items },
    pub ghost capped: { cap ≡ batch_cap points.now.vectors settings },
    pub ghost cap_fits: { (1 ≤ cap) × (cap ≤ MAX_POINTS) },
}

impl<'p> HnswPlan<'p> {
    /// The plan for a point set and settings, with the levels that the seed gives.
    ///
    /// The settings are in range. Memory: five bytes for each point are kept; in between the seeded order takes twenty.
    /// A refusal leaves nothing.
    pub fn make(
        alloc: Global,
        points: &'p Points,
        settings: HnswSettings,
    ) -> Result<HnswPlan<'p>, NoMemory>
        requires degree { (1 ≤ settings.degree) × (settings.degree ≤ 64) }
        requires beam { (1 ≤ settings.beam) × (settings.beam ≤ MAX_BEAM) }
        requires bits { (1 ≤ settings.bits) × (settings.bits ≤ 8) }
        requires max_level { settings.max_level ≤ 15 }
        requires cap { IfSome settings.cap (λ cap. (1 ≤ cap) × (cap ≤ MAX_POINTS)) }
        ensures points { IfOk result (λ p. p.points.now ≡ points.now) }
        ensures settings { IfOk result (λ p. p.settings ≡ settings) }
        ensures levels { IfOk result (λ p. p.levels.items ≡ levels_of (length points.now.vectors) settings.seed settings.bits settings.max_level) }
    {
        let drawn = levels(
            alloc,
            points.count(),
            settings.seed,
            settings.bits,
            settings.max_level,
        )?;
        HnswPlan::of_levels(alloc, points, settings, drawn)
    }

    /// The plan for a point set with these levels, one for each point, at most 15. The seed gives the order alone.
    ///
    /// Memory: that of `make` without the levels. The levels are given up on a refusal too.
    pub fn of_levels(
        alloc: Global,
        points: &'p Points,
        settings: HnswSettings,
        levels: Vec<u8>,
    ) -> Result<HnswPlan<'p>, NoMemory>
        requires degree { (1 ≤ settings.degree) × (settings.degree ≤ 64) }
        requires beam { (1 ≤ settings.beam) × (settings.beam ≤ MAX_BEAM) }
        requires bits { (1 ≤ settings.bits) × (settings.bits ≤ 8) }
        requires max_level { settings.max_level ≤ 15 }
        requires cap { IfSome settings.cap (λ cap. (1 ≤ cap) × (cap ≤ MAX_POINTS)) }
        requires levels { length levels.items ≡ length points.now.vectors }
        requires low { All (λ level. level ≤ 15) levels.items }
        ensures points { IfOk result (λ p. p.points.now ≡ points.now) }
        ensures settings { IfOk result (λ p. p.settings ≡ settings) }
        ensures levels { IfOk result (λ p. p.levels.items ≡ levels.items) }
    {
        let cap = cap_for(points.count(), settings.cap);
        let mut order = insertion_order_of(
            alloc,
            points,
            settings.order,
            StartKind::First,
            settings.seed,
        )?;
        entry_to_front(order.as_mut_slice(), levels.as_slice());
        Ok(HnswPlan {
            points,
            levels,
            order,
            cap,
            settings,
        })
    }

    /// The entry point, at which each search starts: the first of the order.
    pub fn start(&self) -> u32
        ensures value { result ≡ start_of self.now.points.now.vectors self.now.settings self.now.levels.items }
        ensures bound { result < length self.now.points.now.vectors }
    {
        self.order[0]
    }

    /// The number of the top layer: the greatest level, which is that of the entry point.
    pub fn top(&self) -> u8
        ensures value { result ≡ top_of self.now.levels.items }
        ensures bound { result ≤ 15 }
    {
        self.levels[self.order[0] as usize]
    }

    /// The words of the rows of all layers. Takes no memory.
    pub fn words(&self) -> u64
        ensures { result ≡ words_in self.now.levels.items self.now.settings.degree }
    {
        let degree = u64::from(self.settings.degree);
        let mut words = self.levels.len() as u64 * (degree + degree + 1);
        for layer in 1..self.top() + 1 {
            words += u64::from(members(self.levels.as_slice(), layer)) * (degree + 1);
        }
        words
    }
}

// Moves the entry point to the front of the order.
fn entry_to_front(order: &mut [u32], levels: &[u8])
    requires some { 1 ≤ length levels.now }
    requires inside { All (λ u. u < length levels.now) order.old }
    requires once { (u : ℕ) → u < length levels.now → count_by (λ x. x == u) order.old ≡ 1 }
    ensures { order.new ≡ entry_first levels.now order.old }
{
    let entry = entry_point(order, levels);
    first_to_front(order, entry);
}
