//! The nearest of what is offered to a point.
ghost use Rattle.std.specs.Prelude.{◌≡◌, ℕ, ◌<◌, ◌≤◌, IfOk, List, [], length, take};
ghost use Rattle.std.specs.List.{All};
ghost use Rattle.ann_defs.specs.declared.limits.TheConstants.{MAX_DEGREE, MAX_POINTS, MAX_WORKERS};
ghost use Rattle.ann_defs.specs.Nearness.{ids_of};
ghost use Rattle.ann_defs.specs.Graph.{without};
ghost use Rattle.steal_pool.specs.Work.{AllServe};
ghost use Rattle.neighbour_lists.specs.Offering.{ServesRows, IsOffered, HasOffered};

use ann_defs::{MAX_DEGREE, Near};
use ann_shelf::NoMemory;
use bin_files::Points;
use near_lists::{next_stamp, offer_unseen};
use std::alloc::Global;
use std::marker::Model;
use steal_pool::{Post, posts_of};

/// A worker's scratch: the nearest that were offered to a point, with marks of all ids that were.
///
/// It serves one point after another. It keeps one id more than a list holds, since the point itself may be offered. Memory: 4 bytes a point,
/// 8 for each id that it keeps, and 512 more.
#[derive(Drop)]
pub(crate) struct Nearest {
    list: Vec<Near>,
    len: usize,
    // The greatest length of a list.
    most: usize,
    // One for each point. None is later than `stamp`, so a later one marks without clearing.
    marks: Vec<u32>,
    stamp: u32,
    // Room for ids that were not offered before.
    todo: Vec<u32>,
}

impl Model for Nearest {
    ghost use Rattle.std.specs.Prelude.{◌≡◌, ◌+◌, ◌≤◌, length, take};
    ghost use Rattle.near_lists.specs.Marks.{AreUpTo};
    ghost use Rattle.neighbour_lists.specs.Offering.{Offers};

    ghost Value = { Offers };

    ghost view = { λ s. record { most = s.most; kept = take s.len s.list.items; stamp = s.stamp; marks = s.marks.items } };

    ghost invariant = { λ s. (length s.list.items ≡ s.most + 1) × (s.len ≤ s.most + 1) × AreUpTo s.stamp s.marks.items × (length s.todo.items ≡ 128) };
}

impl Nearest {
    /// A scratch for lists of at most `most` of `n` points. Nothing was offered yet.
    ///
    /// All memory is taken here. A failure leaves nothing.
    pub(crate) fn new(alloc: Global, n: u32, most: u32) -> Result<Nearest, NoMemory>
        requires n { n ≤ MAX_POINTS }
        requires most { most ≤ MAX_DEGREE }
        ensures { IfOk result (λ s. ServesRows n most s) }
    {
        let none = Near { dist: 0, id: 0 };
        let list = vec![in alloc; none; most as usize + 1]?;
        let marks = vec![in alloc; 0u32; n as usize]?;
        let todo = vec![in alloc; 0u32; MAX_DEGREE as usize]?;
        Ok(Nearest {
            list,
            len: 0,
            most: most as usize,
            marks,
            stamp: 0,
            todo,
        })
    }

    /// Forgets what was offered: it is ready for any point.
    pub(crate) fn begin(&mut self)
        ensures none { self.new.kept ≡ [] }
        ensures offered { (points : List (List ℕ)) (v : ℕ) → IsOffered points v self.new }
        ensures most { self.new.most ≡ self.old.most }
        ensures count { length self.new.marks ≡ length self.old.marks }
    {
        self.stamp = next_stamp(&mut self.marks, self.stamp);
        self.len = 0;
    }

    /// Offers ids for the list of point `v`. Each is measured once, however often it is offered.
    pub(crate) fn offer(&mut self, points: &Points, v: u32, ids: &[u32])
        requires v { v < length points.now.vectors }
        requires ids { All (λ u. u < length points.now.vectors) ids.now }
        requires count { length self.old.marks ≡ length points.now.vectors }
        requires offered { IsOffered points.now.vectors v self.old }
        ensures { HasOffered points.now.vectors v ids.now self.old self.new }
    {
        let (len, _) = offer_unseen(
            points,
            points.at(v),
            ids,
            &mut self.list,
            self.len,
            self.most + 1,
            &mut self.marks,
            self.stamp,
            &mut self.todo,
        );
        self.len = len;
    }

    /// Keeps a word that nobody reads, so that the reads that it came from are not left out.
    pub(crate) fn note(&mut self, word: u32)
        ensures { self.new ≡ self.old }
    {
        self.todo[0] = word;
    }

    /// Writes the nearest of the ids that were offered, without `v`, to the front of `out`, and returns how many they are.
    pub(crate) fn write(&self, v: u32, out: &mut [u32]) -> usize
        requires { length out.old ≡ self.now.most }
        ensures row { take result out.new ≡ take self.now.most (without v (ids_of self.now.kept)) }
        ensures bound { result ≤ self.now.most }
    {
        write_ids(&self.list[..self.len], v, out)
    }
}

// Writes the ids of a list, without `v`, to the front of `out`, as many as there is room for.
fn write_ids(list: &[Near], v: u32, out: &mut [u32]) -> usize
    ensures row { take result out.new ≡ take (length out.old) (without v (ids_of list.now)) }
    ensures bound { result ≤ length out.old }
{
    let mut len = 0;
    for x in list {
        if x.id != v && len < out.len() {
            out[len] = x.id;
            len += 1;
        }
    }
    len
}

/// A post for each worker, with a scratch for lists of at most `most` of these points.
pub(crate) fn posts_for(
    alloc: Global,
    points: &Points,
    most: u32,
    workers: u32,
) -> Result<Vec<Post<Nearest>>, NoMemory>
    requires workers { workers ≤ MAX_WORKERS }
    requires most { most ≤ MAX_DEGREE }
    ensures count { IfOk result (λ v. length v.items ≡ workers) }
    ensures serve { IfOk result (λ v. AllServe (ServesRows (length points.now.vectors) most) v.items) }
{
    let n = points.count();
    posts_of(alloc, workers, || Nearest::new(alloc, n, most))
}
