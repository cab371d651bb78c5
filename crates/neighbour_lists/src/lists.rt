//! Lists of nearest neighbours.
ghost use Rattle.std.specs.Prelude.{◌≡◌, ◌+◌, ◌*◌, ◌<◌, ◌≤◌, true, [], IfOk, IfErr, length, replicate};
ghost use Rattle.ann_defs.specs.declared.limits.TheConstants.{MAX_DEGREE, MAX_WORDS};
ghost use Rattle.ann_defs.specs.Graph.{row_in};
ghost use Rattle.neighbour_lists.specs.Held.{BelongTo};

use crate::edges::Edges;
use crate::hoods::Hoods;
use ann_shelf::NoMemory;
use bin_files::Points;
use graph_rows::FlatGraph;
use std::alloc::Global;
use std::marker::Model;

/// A list of the nearest known neighbours for each point, nearest first, and which points are active.
///
/// A contract sees the greatest length of a list, the lists, their edges in reverse and whether these are sorted, the flags, and the
/// neighbourhoods that the last round met. A point that isn't active keeps its list in the next round. Memory: `4 * n * (list + 1)` bytes for
/// the lists and twice as much for the neighbourhoods, twelve for each id once a round or a search graph sorts them, and five for each point.
#[derive(Drop)]
pub struct Lists {
    pub(crate) list: u32,
    pub(crate) rows: FlatGraph,
    pub(crate) edges: Edges,
    // Whether the edges are those of the lists.
    pub(crate) sorted: bool,
    pub(crate) active: Vec<bool>,
    // What the last round met.
    pub(crate) seen: Hoods,
}

impl Model for Lists {
    ghost use Rattle.std.specs.Prelude.{◌≡◌};
    ghost use Rattle.neighbour_lists.specs.Held.{Held};

    ghost Value = { Held };

    ghost view = { λ l. record { list = l.list; rows = l.rows.rows; edges = l.edges; sorted = l.sorted; active = l.active.items; seen_rows = l.seen.rows.rows; seen_others = l.seen.others.rows } };

    ghost invariant = { λ l. l.rows.width ≡ l.list };
}

impl Lists {
    /// An empty list for each point.
    pub fn empty(alloc: Global, points: &Points, list: u32) -> Result<Lists, NoMemory>
        requires list { (1 ≤ list) × (list ≤ MAX_DEGREE) }
        requires words { length points.now.vectors * (list + 1) ≤ MAX_WORDS }
        ensures list { IfOk result (λ l. l.list ≡ list) }
        ensures rows { IfOk result (λ l. l.rows ≡ replicate (length points.now.vectors) []) }
        ensures belong { IfOk result (λ l. BelongTo points.now.vectors l) }
    {
        let n = points.count();
        let rows = FlatGraph::new(alloc, n, list)?;
        let edges = Edges::of(alloc, points, &rows)?;
        let active = vec![in alloc; true; n as usize]?;
        let seen = Hoods {
            rows: FlatGraph::new(alloc, n, list)?,
            others: FlatGraph::new(alloc, n, list)?,
        };
        Ok(Lists {
            list,
            rows,
            edges,
            sorted: true,
            active,
            seen,
        })
    }

    /// How many lists there are.
    pub fn count(&self) -> u32
        ensures { result ≡ length self.now.rows }
    {
        self.rows.count()
    }

    /// The lists by id, each from the nearest on. Takes no memory.
    pub fn rows(&self) -> &FlatGraph
        ensures rows { result.now.rows ≡ self.now.rows }
        ensures width { result.now.width ≡ self.now.list }
    {
        &self.rows
    }

    /// Whether the edges are those of the lists. They are after a round, and not after leaves came. Takes no memory.
    pub fn is_sorted(&self) -> bool
        ensures { result ≡ self.now.sorted }
    {
        self.sorted
    }

    /// The edges in reverse as they were sorted last. Takes no memory.
    pub fn edges(&self) -> &Edges
        ensures { result.now ≡ self.now.edges }
    {
        &self.edges
    }

    /// The list of a point, from the nearest on. Takes no memory.
    pub fn row(&self, id: u32) -> &[u32]
        requires { id < length self.now.rows }
        ensures { result.now ≡ row_in self.now.rows id }
    {
        self.rows.at(id)
    }
}
