//! What is decided before the first batch.
ghost use Rattle.std.specs.Prelude.{◌≡◌, ◌+◌, ◌*◌, ◌<◌, ◌≤◌, length, IfOk, IfSome};
ghost use Rattle.ann_defs.specs.declared.limits.TheConstants.{MAX_BEAM, MAX_DEGREE, MAX_POINTS, MAX_WORDS};
ghost use Rattle.std.specs.List.{All};
ghost use Rattle.vamana_build.specs.Builds.{order_of, start_of, batch_cap};

use crate::settings::VamanaSettings;
use ann_shelf::NoMemory;
use bin_files::Points;
use prefix_batches::cap_for;
use seeded_order::insertion_order_of;
use std::alloc::Global;

/// A point set with settings in range, the order of insertion and the cap of the batches.
///
/// Order and cap are those of the points and the settings. The first of the order is the start of each search.
#[derive(Drop)]
pub struct Plan<'p> {
    pub points: &'p Points,
    pub order: Vec<u32>,
    pub cap: u32,
    pub settings: VamanaSettings,
    pub ghost count: { (1 ≤ length points.now.vectors) × (length points.now.vectors ≤ MAX_POINTS) },
    pub ghost degree: { (1 ≤ settings.degree) × (settings.degree ≤ MAX_DEGREE) },
    pub ghost beam: { (1 ≤ settings.beam) × (settings.beam ≤ MAX_BEAM) },
    pub ghost passes: { (1 ≤ settings.passes) × (settings.passes ≤ 2) },
    pub ghost words: { length points.now.vectors * (settings.degree + 1) ≤ MAX_WORDS },
    pub ghost ordered: { order.items ≡ order_of points.now.vectors settings },
    pub ghost whole: { length order.items ≡ length points.now.vectors },
    pub ghost inside: { All (λ p. p < length points.now.vectors) order.items },
    pub ghost capped: { cap ≡ batch_cap points.now.vectors settings },
    pub ghost cap_fits: { (1 ≤ cap) × (cap ≤ MAX_POINTS) },
}

impl<'p> Plan<'p> {
    /// The plan for a point set and settings.
    ///
    /// The settings are in range, and the graph's words, `degree + 1` for each point, are at most 134,217,728. Four
    /// bytes for each point are kept; in between the seeded order takes twenty. A failure leaves nothing.
    pub fn make(
        alloc: Global,
        points: &'p Points,
        settings: VamanaSettings,
    ) -> Result<Plan<'p>, NoMemory>
        requires degree { (1 ≤ settings.degree) × (settings.degree ≤ MAX_DEGREE) }
        requires beam { (1 ≤ settings.beam) × (settings.beam ≤ MAX_BEAM) }
        requires cap { IfSome settings.cap (λ cap. (1 ≤ cap) × (cap ≤ MAX_POINTS)) }
        requires passes { (1 ≤ settings.passes) × (settings.passes ≤ 2) }
        requires words { length points.now.vectors * (settings.degree + 1) ≤ MAX_WORDS }
        ensures points { IfOk result (λ p. p.points.now ≡ points.now) }
        ensures settings { IfOk result (λ p. p.settings ≡ settings) }
    {
        let order = insertion_order_of(
            alloc,
            points,
            settings.order,
            settings.start,
            settings.seed,
        )?;
        let cap = cap_for(points.count(), settings.cap);
        Ok(Plan {
            points,
            order,
            cap,
            settings,
        })
    }

    /// The point at which each search starts: the first of the order.
    pub fn start(&self) -> u32
        ensures value { result ≡ start_of self.now.points.now.vectors self.now.settings }
        ensures bound { result < length self.now.points.now.vectors }
    {
        self.order[0]
    }
}
