//! 2,000 made points and 5,000 made queries: the index takes more than one piece of a file, and the queries more than one
//! round. Two other programs give the index of each kind, byte for byte alike: one that follows the definitions step by step,
//! and a builder of the same definitions in C++. The first of them gives the answers.
ghost use Rattle.std.specs.Prelude.{◌≤◌};

use ann_shelf::{MemShelf, NoMemory};
use bin_files::write_points;
use seeded_order::made_points;
use std::alloc::Global;
use std::process::Abort;
use std::sync::Wait;
use std::thread::Threads;
use top_calls::{NONE, Outcome, call};

/// What identifies the files of points and of queries.
const POINTS: u64 = 0xbdae441cc500b8a9;

const QUERIES: u64 = 0x642a3971995c5b18;

/// How often a shelf may be called for one build: the points and the index take some twenty pieces.
const CALLS: u64 = 40;

/// An index of the points and its answers to the queries, as other programs give them.
#[derive(Clone, Copy)]
pub(crate) struct Wanted<'a> {
    /// The options of the build.
    pub settings: &'a str,
    /// The line that the build prints.
    pub line: &'a [u8],
    /// The index: how many bytes, and their sum.
    pub index: (usize, u64),
    /// The lines of the answers: how many bytes, and their sum.
    pub answers: (usize, u64),
}

/// The 64-bit FNV-1a sum of bytes.
fn sum_of(bytes: &[u8]) -> u64 {
    let mut sum = 0xcbf29ce484222325u64;
    for byte in bytes {
        sum = (sum ^ u64::from(*byte)).wrapping_mul(0x100000001b3);
    }
    sum
}

/// The bytes of a file, or none.
fn bytes_in<'a>(shelf: &'a MemShelf, name: &str) -> &'a [u8] {
    shelf.bytes(name).unwrap_or(&[])
}

/// A shelf with a file of so many made points of this seed, whose bytes have this sum.
fn made_file(
    rt: &impl Abort,
    alloc: Global,
    count: u32,
    seed: u64,
    sum: u64,
) -> Result<MemShelf, NoMemory>
    requires { (1 ≤ count) × (count ≤ 5000) }
{
    let points = made_points(alloc, count, 16, seed, 0)?;
    let mut shelf = MemShelf::new(alloc);
    if write_points(&mut shelf, "pts", &points).is_err() {
        return Err(NoMemory);
    }
    assert_eq!(rt; sum_of(bytes_in(&shelf, "pts")), sum);
    Ok(shelf)
}

/// A build of the points with these settings, on this pool.
fn built<R: Threads + Wait + Sync>(
    rt: &R,
    alloc: Global,
    points: &[u8],
    settings: &str,
    pool: &str,
) -> Result<Outcome, NoMemory> {
    let words = format!(in alloc; "build pts ann {settings} {pool}")?;
    call(rt, alloc, words.as_str(), &[("pts", points)], NONE)
}

/// Asserts that a build of the points on each of these pools gives the wanted line and index.
pub(crate) fn assert_index<R: Threads + Wait + Sync + Abort>(
    rt: &R,
    alloc: Global,
    wanted: Wanted,
    pools: &[&str],
) -> Result<(), NoMemory> {
    let data = made_file(rt, alloc, 2000, 1, POINTS)?;
    for pool in pools {
        let ended = built(rt, alloc, bytes_in(&data, "pts"), wanted.settings, pool)?;
        assert_eq!(rt; ended.status.code, 0, "{pool}");
        assert!(rt; ended.out.bytes() == wanted.line, "{pool}");
        let index = bytes_in(&ended.shelf, "ann");
        assert_eq!(rt; (index.len(), sum_of(index)), wanted.index, "{pool}");
        assert!(rt; ended.shelf.calls() <= CALLS, "{pool}");
    }
    Ok(())
}

/// Asserts that queries of these files print lines of so many bytes and this sum on each of these pools.
fn assert_lines<R: Threads + Wait + Sync + Abort>(
    rt: &R,
    alloc: Global,
    files: &[(&str, &[u8])],
    answers: (usize, u64),
    pools: &[&str],
) -> Result<(), NoMemory> {
    for pool in pools {
        let words = format!(in alloc; "query pts ann ask --search 16 --k 3 {pool}")?;
        let ended = call(rt, alloc, words.as_str(), files, NONE)?;
        assert_eq!(rt; ended.status.code, 0, "{pool}");
        let lines = ended.out.bytes();
        assert_eq!(rt; (lines.len(), sum_of(lines)), answers, "{pool}");
    }
    Ok(())
}

/// Asserts that the index of the points gives the wanted answers to the queries on each of these pools.
pub(crate) fn assert_answers<R: Threads + Wait + Sync + Abort>(
    rt: &R,
    alloc: Global,
    wanted: Wanted,
    pools: &[&str],
) -> Result<(), NoMemory> {
    let asked = made_file(rt, alloc, 5000, 2, QUERIES)?;
    let data = made_file(rt, alloc, 2000, 1, POINTS)?;
    let points = bytes_in(&data, "pts");
    let ended = built(rt, alloc, points, wanted.settings, "--pool steal")?;
    let files = [
        ("pts", points),
        ("ann", bytes_in(&ended.shelf, "ann")),
        ("ask", bytes_in(&asked, "pts")),
    ];
    assert_lines(rt, alloc, &files, wanted.answers, pools)
}
