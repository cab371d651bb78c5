//! Points and queries that settings ask for, made by the generator.
ghost use Rattle.std.specs.Prelude.{◌≡◌, ◌⊎◌, ◌*◌, ◌≤◌, Some, None, IfOk, IfErr, OnOk};
ghost use Rattle.ann_defs.specs.declared.limits.TheConstants.{MAX_CELLS, MAX_DIM, MAX_POINTS};
ghost use Rattle.annbuild_lines.specs.declared.fault.Fault.TheVariants.{NoMemory as NoMemoryFault};
ghost use Rattle.index_build.specs.Limits.{cells_refusal};
ghost use Rattle.annbuild_commands.specs.Making.{points_made};
ghost use Rattle.annbuild_commands.specs.Trying.{queries_made};

use ann_shelf::NoMemory;
use annbuild_lines::Fault;
use annbuild_words::Settings;
use bin_files::Points;
use index_build::check_cells;
use seeded_order::made_points;
use std::alloc::Global;

/// Makes the points that settings ask for. It fails if they have more numbers than may be, and with want of memory.
pub(crate) fn points_for(alloc: Global, options: &Settings) -> Result<Points, Fault>
    requires count { (1 ≤ options.now.count) × (options.now.count ≤ MAX_POINTS) }
    requires dim { (1 ≤ options.now.dim) × (options.now.dim ≤ MAX_DIM) }
    ensures fits { OnOk result (cells_refusal options.now.count options.now.dim ≡ None) }
    ensures few { OnOk result (options.now.count * options.now.dim ≤ MAX_CELLS) }
    ensures points { IfOk result (λ p. p ≡ points_made options.now) }
    ensures failed { IfErr result (λ fault. (cells_refusal options.now.count options.now.dim ≡ Some fault) ⊎ (fault ≡ NoMemoryFault)) }
{
    check_cells(options.count, options.dim)?;
    let points = made_points(alloc, options.count, options.dim, options.seed, 0)?;
    Ok(points)
}

/// Makes the queries of a trial: the generator's bytes behind those of the points.
pub(crate) fn queries_for(alloc: Global, options: &Settings) -> Result<Points, NoMemory>
    requires queries { (1 ≤ options.now.queries) × (options.now.queries ≤ 4096) }
    requires dim { (1 ≤ options.now.dim) × (options.now.dim ≤ MAX_DIM) }
    requires few { options.now.count * options.now.dim ≤ MAX_CELLS }
    ensures { IfOk result (λ q. q.vectors ≡ queries_made options.now) }
{
    let behind = u64::from(options.count) * u64::from(options.dim);
    made_points(alloc, options.queries, options.dim, options.seed, behind)
}
