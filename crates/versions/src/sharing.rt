//! How a publisher and its callers are made.
ghost use Rattle.std.specs.Prelude.{◌≡◌, ◌≤◌, replicate, IfOk};
ghost use Rattle.ann_defs.specs.declared.limits.TheConstants.{MAX_CALLERS};
ghost use Rattle.versions.specs.Course.{course_of, graph_after};
ghost use Rattle.versions.specs.Standing.{opening, starting};

use crate::caller::Caller;
use crate::publisher::Publisher;
use ann_shelf::NoMemory;
use graph_rows::FlatGraph;
use std::alloc::Global;
use vamana_build::Plan;

/// So many notes may bring a reader at once.
const NOTES: usize = 64;

/// The publisher and the callers of one plan, where the graph after its first batch is shared.
///
/// There are always as many callers as asked. Where `left_right` refuses a caller's reader, each query of that caller is
/// refused and counted. Each reader enters once, to compare the plan that it finds with this one, point by point. Memory:
/// a copy of the graph. After a failure `first` is dropped.
pub fn share<'p>(
    alloc: Global,
    plan: &'p Plan<'p>,
    first: FlatGraph,
    callers: u32,
) -> Result<(Publisher<'p>, Vec<Caller<'p>>), NoMemory>
    requires first { first ≡ graph_after (course_of plan.now) 1 }
    requires callers { (1 ≤ callers) × (callers ≤ MAX_CALLERS) }
    ensures publisher { IfOk result (λ t. t.0 ≡ opening (course_of plan.now)) }
    ensures callers { IfOk result (λ t. t.1.items ≡ replicate callers (starting (course_of plan.now))) }
{
    // A publisher can't be dropped, so nothing may fail once it is made.
    let mut asking = Vec::with_capacity(alloc, callers as usize)?;
    let publisher = Publisher::new(alloc, plan, first, callers as usize + NOTES)?;
    for _ in 0..callers {
        asking.push_reserved(Caller::new(publisher.factory(), plan));
    }
    Ok((publisher, asking))
}
