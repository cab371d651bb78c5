//! An index and the points that it is of, held against each other.
ghost use Rattle.std.specs.Prelude.{◌≡◌, ◌+◌, ◌≤◌};
ghost use Rattle.graph_rows.specs.View.{contents};
ghost use Rattle.annbuild_commands.specs.Fitting.{differs, group_at, digest_unfit, stamp_unfit, index_unfit};

use annbuild_lines::{Fault, What};
use annbuild_words::Role;
use bin_files::Points;
use graph_rows::{Index, Stamp};
use index_build::element_code;
use points_digest::digest_of;

/// A number of a file that differs from the points'.
pub(crate) fn differs(file: Role, what: What, found: u64, wanted: u64) -> Option<Fault>
    ensures { result ≡ differs file what found wanted }
{
    if found == wanted {
        return None;
    }
    Some(Fault::Unfit {
        file,
        what,
        found,
        wanted,
    })
}

// Eight bytes of a digest as one number.
fn group_at(digest: &[u8; 32], at: usize) -> u64
    requires { at + 8 ≤ 32 }
    ensures { result ≡ group_at digest.now at }
{
    let mut eight = [0u8; 8];
    eight.copy_from_slice(&digest[at..at + 8]);
    u64::from_be_bytes(eight)
}

// The group of two digests at a place, where it differs.
fn unfit_group(found: &[u8; 32], wanted: &[u8; 32], at: usize) -> Option<Fault>
    requires { at + 8 ≤ 32 }
    ensures { result ≡ differs Role.Index What.Digest (group_at found.now at) (group_at wanted.now at) }
{
    differs(
        Role::Index,
        What::Digest,
        group_at(found, at),
        group_at(wanted, at),
    )
}

// The first group of two digests that differs.
fn unfit_digest(found: &[u8; 32], wanted: &[u8; 32]) -> Option<Fault>
    ensures { result ≡ digest_unfit found.now wanted.now }
{
    if let Some(fault) = unfit_group(found, wanted, 0) {
        return Some(fault);
    }
    if let Some(fault) = unfit_group(found, wanted, 8) {
        return Some(fault);
    }
    if let Some(fault) = unfit_group(found, wanted, 16) {
        return Some(fault);
    }
    unfit_group(found, wanted, 24)
}

// What differs of a stamp. The points are hashed where there is one and its element is theirs.
fn unfit_stamp(points: &Points, stamp: &Option<Stamp>) -> Option<Fault>
    ensures { result ≡ stamp_unfit points.now stamp.now }
{
    let Some(stamp) = stamp else {
        return None;
    };
    let element = u64::from(element_code(points.element()));
    if let Some(fault) = differs(
        Role::Index,
        What::Element,
        u64::from(stamp.element),
        element,
    ) {
        return Some(fault);
    }
    unfit_digest(&stamp.digest, &digest_of(points))
}

/// What differs first of an index: its count, its dimension, its stamp.
pub(crate) fn unfit_index(points: &Points, index: &Index) -> Option<Fault>
    ensures { result ≡ index_unfit points.now (contents index.now) }
{
    let count = u64::from(points.count());
    if let Some(fault) = differs(Role::Index, What::Count, u64::from(index.count), count) {
        return Some(fault);
    }
    let dim = u64::from(points.dim());
    if let Some(fault) = differs(Role::Index, What::Dim, u64::from(index.dim), dim) {
        return Some(fault);
    }
    unfit_stamp(points, &index.stamp)
}
