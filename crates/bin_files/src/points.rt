ghost use Rattle.std.specs.Prelude.{◌≡◌, ◌*◌, ◌/◌, ◌%◌, ◌+◌, ◌↔◌, IsTrue, take, drop, ℕ, slice_index, ◌<◌, ◌≤◌, length, vec_len};
ghost use Rattle.ann_defs.specs.Distance.{point, dim_of};
ghost use Rattle.bin_files.specs.Rows.{rows, cells, AreLimits, ArePoints};

use crate::elements::are_bytes;
use ann_defs::{Element, MAX_CELLS, MAX_DIM, MAX_POINTS};
use std::marker::Model;

/// A set of points, each a vector of as many stored numbers: at least one point, and all of it within the limits.
///
/// A point is named by its id, its place from 0. The numbers of all points lie in one block, a byte each, in the order of
/// the ids, so a point's numbers are lent and never copied. Contracts see what the numbers stand for and the list of the
/// points' vectors.
#[derive(Drop)]
pub struct Points {
    count: u32,
    dim: u32,
    element: Element,
    bytes: Vec<u8>,
}

impl Model for Points {
    ghost use Rattle.std.specs.Prelude.{◌≡◌, ◌*◌, length};
    ghost use Rattle.ann_defs.specs.Distance.{PointSet};
    ghost use Rattle.bin_files.specs.Rows.{rows, AreLimits};

    ghost Value = { PointSet };

    ghost view = { λ p. record { element = p.element; vectors = rows p.count p.dim p.bytes.items } };

    ghost invariant = { λ p. AreLimits p.count p.dim × (length p.bytes.items ≡ p.count * p.dim) };
}

impl Points {
    // So many points of so many numbers each, from their numbers.
    pub(crate) fn new(element: Element, count: u32, dim: u32, bytes: Vec<u8>) -> Points
        requires limits { AreLimits count dim }
        requires bytes { length bytes.items ≡ count * dim }
        ensures points { result.vectors ≡ rows count dim bytes.items }
        ensures element { result.element ≡ element }
    {
        Points {
            count,
            dim,
            element,
            bytes,
        }
    }

    /// The points whose stored numbers stand one after another, `dim` each. It keeps the numbers and takes no memory.
    pub fn of(element: Element, dim: u32, stored: Vec<u8>) -> Points
        requires dim { (1 ≤ dim) × (dim ≤ MAX_DIM) }
        requires whole { vec_len stored % dim ≡ 0 }
        requires some { dim ≤ vec_len stored }
        requires count { vec_len stored ≤ MAX_POINTS * dim }
        requires cells { vec_len stored ≤ MAX_CELLS }
        ensures vectors { result.vectors ≡ rows (vec_len stored / dim) dim stored.items }
        ensures element { result.element ≡ element }
    {
        let count = (stored.len() / dim as usize) as u32;
        Points {
            count,
            dim,
            element,
            bytes: stored,
        }
    }

    /// The points of `U8` that stand in the bytes one after another, `dim` bytes each. It keeps the bytes and takes no
    /// memory.
    pub fn from_bytes(dim: u32, bytes: Vec<u8>) -> Points
        requires dim { (1 ≤ dim) × (dim ≤ MAX_DIM) }
        requires whole { vec_len bytes % dim ≡ 0 }
        requires some { dim ≤ vec_len bytes }
        requires count { vec_len bytes ≤ MAX_POINTS * dim }
        requires cells { vec_len bytes ≤ MAX_CELLS }
        ensures vectors { result.vectors ≡ rows (vec_len bytes / dim) dim bytes.items }
        ensures element { result.element ≡ Element.U8 }
    {
        Points::of(Element::U8, dim, bytes)
    }

    /// What the stored numbers stand for.
    pub fn element(&self) -> Element
        ensures { result ≡ self.now.element }
    {
        self.element
    }

    /// How many points there are, at least one. The ids are those below it.
    pub fn count(&self) -> u32
        ensures value { result ≡ length self.now.vectors }
        ensures some { 1 ≤ result }
        ensures bound { result ≤ MAX_POINTS }
    {
        self.count
    }

    /// How many numbers each point has, at least one.
    pub fn dim(&self) -> u32
        ensures value { result ≡ dim_of self.now.vectors }
        ensures some { 1 ≤ result }
        ensures bound { result ≤ MAX_DIM }
    {
        self.dim
    }

    /// What every point set keeps: a call that tells it to a proof and does nothing.
    pub fn keeps_limits(&self)
        ensures { ArePoints self.now.vectors }
    {
        are_bytes(&self.bytes);
    }

    /// Whether two point sets are the same: what their numbers stand for, and the numbers of each point.
    pub fn is_same(&self, other: &Points) -> bool
        ensures { IsTrue result ↔ (self.now ≡ other.now) }
    {
        if self.element != other.element {
            return false;
        }
        if self.count != other.count {
            return false;
        }
        if self.dim != other.dim {
            return false;
        }
        self.bytes.as_slice() == other.bytes.as_slice()
    }

    // The numbers of all points.
    pub(crate) fn as_bytes(&self) -> &[u8]
        ensures { result.now ≡ cells self.now.vectors }
    {
        &self.bytes
    }

    /// The stored numbers of the point with id `i`, as many as the dimension.
    pub fn at(&self, i: u32) -> &[u8]
        requires { i < length self.now.vectors }
        ensures value { result.now ≡ point self.now.vectors i }
        ensures dim { length result.now ≡ dim_of self.now.vectors }
        ensures short { length result.now ≤ MAX_DIM }
    {
        let d = self.dim as usize;
        part(&self.bytes, i as usize * d, d)
    }
}

// So many bytes from a place on.
fn part(bytes: &[u8], at: usize, len: usize) -> &[u8]
    requires { at + len ≤ length bytes.now }
    ensures { result.now ≡ take len (drop at bytes.now) }
{
    &bytes[at..at + len]
}
