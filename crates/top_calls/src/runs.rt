//! One run of every command and kind of index, with what it leaves and prints. The bytes and lines are those of the worked
//! files and of an independent program that follows docs/DEFINITIONS.md.
use crate::{
    FOUR, FOUR_BY_FOUR, FOUR_IN_LISTS, FOUR_IN_TWO_LAYERS, FOUR_LINE, FOUR_STAMPED, Failing,
    Outcome, call,
};
use ann_shelf::NoMemory;
use std::alloc::Global;
use std::sync::Wait;
use std::thread::Threads;

/// The words of a run, and what it has to leave and to print.
#[derive(Clone, Copy)]
pub struct Run {
    pub words: &'static str,
    /// What the files `pts` and `ann` hold before it; `ask` holds [`ASKED`].
    pub pts: &'static [u8],
    pub ann: &'static [u8],
    /// What the two hold after it.
    pub pts_after: &'static [u8],
    pub ann_after: &'static [u8],
    pub out: &'static [u8],
    /// What its last call of the shelf is: 0 where there is none, 2 and 3 for a read of the index and of the queries, 4 for a write.
    pub last: u8,
}

/// Two queries, 12 and 30.
pub const ASKED: &[u8] = b"\x02\0\0\0\x01\0\0\0\x0c\x1e";

/// One point, 7.
const ONE: &[u8] = b"\x01\0\0\0\x01\0\0\0\x07";

/// What stands where an index goes to.
const OLD: &[u8] = b"an older index";

/// The runs.
pub static RUNS: [Run; 17] = [
    Run {
        words: "build pts ann --order file --start first --degree 2 --beam 4 --alpha 1/1 --cap 4",
        pts: FOUR,
        ann: OLD,
        pts_after: FOUR,
        ann_after: FOUR_BY_FOUR,
        out: FOUR_LINE,
        last: 4,
    },
    Run {
        words: "build pts ann --kind hnsw --order file --degree 1 --beam 4 --cap 4 --bits 1 --max-level 1 --seed 22",
        pts: FOUR,
        ann: OLD,
        pts_after: FOUR,
        ann_after: FOUR_IN_TWO_LAYERS,
        out: b"built hnsw count 4 dim 1 degree 1 start 1 layers 2 edges 5\n",
        last: 4,
    },
    Run {
        words: "build pts ann --kind nnd --start first --degree 2 --alpha 1/1 --list 2 --trees 1 --rounds 1",
        pts: FOUR,
        ann: OLD,
        pts_after: FOUR,
        ann_after: FOUR_IN_LISTS,
        out: b"built nnd count 4 dim 1 degree 2 start 0 layers 1 edges 6\n",
        last: 4,
    },
    Run {
        words: "query pts ann ask --search 4 --k 2",
        pts: FOUR,
        ann: FOUR_BY_FOUR,
        pts_after: FOUR,
        ann_after: FOUR_BY_FOUR,
        out: b"0 1:4 2:64\n1 2:100 1:400\n",
        last: 3,
    },
    Run {
        words: "query pts ann ask --search 4 --k 2",
        pts: FOUR,
        ann: FOUR_IN_TWO_LAYERS,
        pts_after: FOUR,
        ann_after: FOUR_IN_TWO_LAYERS,
        out: b"0 1:4 2:64\n1 2:100 1:400\n",
        last: 3,
    },
    Run {
        words: "query pts ann ask --search 4 --k 2",
        pts: FOUR,
        ann: FOUR_IN_LISTS,
        pts_after: FOUR,
        ann_after: FOUR_IN_LISTS,
        out: b"0 1:4 2:64\n1 3:0 2:100\n",
        last: 3,
    },
    Run {
        words: "check pts ann",
        pts: FOUR,
        ann: FOUR_BY_FOUR,
        pts_after: FOUR,
        ann_after: FOUR_BY_FOUR,
        out: b"ok vamana count 4 dim 1 degree 2 start 0 layers 1 edges 5 longest 2\n",
        last: 2,
    },
    Run {
        words: "check pts ann",
        pts: FOUR,
        ann: FOUR_IN_TWO_LAYERS,
        pts_after: FOUR,
        ann_after: FOUR_IN_TWO_LAYERS,
        out: b"ok hnsw count 4 dim 1 degree 1 start 1 layers 2 edges 5 longest 2\n",
        last: 2,
    },
    Run {
        words: "check pts ann",
        pts: FOUR,
        ann: FOUR_IN_LISTS,
        pts_after: FOUR,
        ann_after: FOUR_IN_LISTS,
        out: b"ok nnd count 4 dim 1 degree 2 start 0 layers 1 edges 6 longest 2\n",
        last: 2,
    },
    Run {
        words: "build pts ann --order file --start first --degree 2 --beam 4 --alpha 1/1 --cap 4 --format 2",
        pts: FOUR,
        ann: OLD,
        pts_after: FOUR,
        ann_after: FOUR_STAMPED,
        out: FOUR_LINE,
        last: 4,
    },
    Run {
        words: "query pts ann ask --search 4 --k 2",
        pts: FOUR,
        ann: FOUR_STAMPED,
        pts_after: FOUR,
        ann_after: FOUR_STAMPED,
        out: b"0 1:4 2:64\n1 2:100 1:400\n",
        last: 3,
    },
    Run {
        words: "check pts ann",
        pts: FOUR,
        ann: FOUR_STAMPED,
        pts_after: FOUR,
        ann_after: FOUR_STAMPED,
        out: b"ok vamana count 4 dim 1 degree 2 start 0 layers 1 edges 5 longest 2\n",
        last: 2,
    },
    Run {
        words: "make pts --count 3 --dim 2 --seed 1",
        pts: FOUR,
        ann: OLD,
        pts_after: b"\x03\0\0\0\x02\0\0\0\xf1\x63\x08\x92\xa1\x4b",
        ann_after: OLD,
        out: b"made count 3 dim 2\n",
        last: 4,
    },
    // With one point there is one batch, so that the lines of the callers are decided.
    Run {
        words: "live pts ann ask --order file --start first --degree 2 --search 4 --k 2",
        pts: ONE,
        ann: OLD,
        pts_after: ONE,
        ann_after: b"PANN\x01\0\0\0\x01\0\0\0\x01\0\0\0\x01\0\0\0\x02\0\0\0\0\0\0\0\x01\0\0\0\0\0\0\0",
        out: b"built vamana count 1 dim 1 degree 2 start 0 layers 1 edges 0\nlive 0 1 0:25\nlive 1 1 0:529\nlast 0 1 0:25\nlast 1 1 0:529\n",
        last: 4,
    },
    Run {
        words: "trial --count 5 --dim 2 --queries 3 --search 4 --k 2 --seed 1 --degree 2",
        pts: FOUR,
        ann: OLD,
        pts_after: FOUR,
        ann_after: OLD,
        out: b"built vamana count 5 dim 2 degree 2 start 4 layers 1 edges 8\nqueries 3 answers 6 total 67329\n",
        last: 0,
    },
    Run {
        words: "trial --kind hnsw --count 5 --dim 2 --queries 3 --search 4 --k 2 --seed 1 --bits 1",
        pts: FOUR,
        ann: OLD,
        pts_after: FOUR,
        ann_after: OLD,
        out: b"built hnsw count 5 dim 2 degree 16 start 3 layers 4 edges 14\nqueries 3 answers 6 total 67329\n",
        last: 0,
    },
    Run {
        words: "trial --kind nnd --count 5 --dim 2 --queries 3 --search 4 --k 2 --seed 1 --list 2 --trees 2 --leaf 2",
        pts: FOUR,
        ann: OLD,
        pts_after: FOUR,
        ann_after: OLD,
        out: b"built nnd count 5 dim 2 degree 64 start 4 layers 1 edges 4\nqueries 3 answers 6 total 138722\n",
        last: 0,
    },
];

impl Run {
    /// Does it over its files.
    pub fn done<R: Threads + Wait + Sync>(
        &self,
        rt: &R,
        alloc: Global,
        failing: Failing,
    ) -> Result<Outcome, NoMemory> {
        let files = [("pts", self.pts), ("ann", self.ann), ("ask", ASKED)];
        call(rt, alloc, self.words, &files, failing)
    }

    /// Whether all files are as they were before it.
    pub fn is_untouched(&self, ended: &Outcome) -> bool {
        has_files(ended, self.pts, self.ann)
    }

    /// Whether the file that it stores is whole, and all others are as they were.
    pub fn is_stored(&self, ended: &Outcome) -> bool {
        has_files(ended, self.pts_after, self.ann_after)
    }

    /// Whether it stores a file.
    pub fn stores(&self) -> bool {
        self.last == 4
    }

    /// Whether it ended with code 0, its lines and its files.
    pub fn is_done(&self, ended: &Outcome) -> bool {
        ended.status.code == 0
            && ended.status.fault.is_none()
            && ended.err.bytes().is_empty()
            && ended.out.bytes() == self.out
            && self.is_stored(ended)
    }
}

/// Whether the files are these, with the queries.
fn has_files(ended: &Outcome, pts: &[u8], ann: &[u8]) -> bool {
    ended.shelf.bytes("pts") == Some(pts)
        && ended.shelf.bytes("ann") == Some(ann)
        && ended.shelf.bytes("ask") == Some(ASKED)
}
