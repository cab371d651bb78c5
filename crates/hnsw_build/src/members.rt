//! The ids of a layer.
ghost use Rattle.std.specs.Prelude.{◌≡◌, ◌≤◌, IfOk, length};
ghost use Rattle.ann_defs.specs.declared.limits.TheConstants.{MAX_POINTS};
ghost use Rattle.hnsw_build.specs.Layering.{ids_in};

use ann_shelf::NoMemory;
use std::alloc::Global;

/// How many ids layer `layer` holds.
pub(crate) fn members(levels: &[u8], layer: u8) -> u32
    requires { length levels.now ≤ MAX_POINTS }
    ensures value { result ≡ length (ids_in levels.now layer) }
    ensures bound { result ≤ length levels.now }
{
    let mut count = 0;
    for id in 0..levels.len() {
        if levels[id] >= layer {
            count += 1;
        }
    }
    count
}

/// The ids that layer `layer` holds, ascending.
pub(crate) fn member_ids(alloc: Global, levels: &[u8], layer: u8) -> Result<Vec<u32>, NoMemory>
    requires { length levels.now ≤ MAX_POINTS }
    ensures { IfOk result (λ v. v.items ≡ ids_in levels.now layer) }
{
    let mut ids = Vec::with_capacity(alloc, members(levels, layer) as usize)?;
    for id in 0..levels.len() {
        if levels[id] >= layer {
            ids.push(id as u32)?;
        }
    }
    Ok(ids)
}
