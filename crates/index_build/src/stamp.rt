//! The stamp of an index.
ghost use Rattle.std.specs.Prelude.{◌≡◌, ◌<◌, ◌^◌, ℕ, length, slice_index};
ghost use Rattle.graph_rows.specs.Stamps.{IsStamped};
ghost use Rattle.graph_rows.specs.View.{kind_code};
ghost use Rattle.index_build.specs.IndexOf.{AreForBuild};
ghost use Rattle.index_build.specs.Stamping.{element_code, order_code, start_code, used_cap, shared_stamp, stamp_by, stamp_of, stamp_for};
ghost use Rattle.ann_defs.specs.declared.kinds.Kind.TheVariants as kinds;

use ann_defs::{Element, Kind, OrderKind, StartKind};
use bin_files::Points;
use command_options::Settings;
use graph_rows::Stamp;
use points_digest::digest_of;
use prefix_batches::default_cap;

/// The stamp of the index that settings ask for: what decides it, with the digest of the points, where the format is 2.
pub fn stamp_for(points: &Points, settings: &Settings) -> Option<Stamp>
    requires { AreForBuild settings.now }
    ensures value { result ≡ stamp_for points.now settings.now }
    ensures allowed { IsStamped (kind_code settings.now.kind) result }
{
    if settings.format == 1 {
        return None;
    }
    let stamp = stamp_of(points, settings);
    points.keeps_limits();
    fits(stamp.seed, stamp.floor, stamp.digest);
    Some(stamp)
}

// What the types of these fields keep: a call that tells it to a proof and does nothing.
fn fits(seed: u64, floor: u64, digest: [u8; 32])
    ensures seed { seed < 2 ^ 64 }
    ensures floor { floor < 2 ^ 64 }
    ensures long { length digest ≡ 32 }
    ensures bytes { (i : ℕ) → slice_index digest i < 256 }
{
    let _first = digest.first();
}

/// The stamp of a build.
fn stamp_of(points: &Points, settings: &Settings) -> Stamp
    ensures { result ≡ stamp_of points.now settings.now }
{
    match settings.kind {
        Kind::Vamana => vamana_stamp(points, settings),
        Kind::Hnsw => hnsw_stamp(points, settings),
        Kind::Nnd => nnd_stamp(points, settings),
    }
}

/// The number that stands for what the stored numbers are.
pub fn element_code(element: Element) -> u32
    ensures { result ≡ element_code element }
{
    match element {
        Element::U8 => 1,
        Element::I8 => 2,
    }
}

/// The number that stands for an order of insertion.
fn order_code(order: OrderKind) -> u32
    ensures { result ≡ order_code order }
{
    match order {
        OrderKind::File => 1,
        OrderKind::Seeded => 2,
    }
}

/// The number that stands for a start.
fn start_code(start: StartKind) -> u32
    ensures { result ≡ start_code start }
{
    match start {
        StartKind::First => 1,
        StartKind::Medoid => 2,
    }
}

/// The cap that a build goes by.
fn used_cap(points: &Points, settings: &Settings) -> u32
    ensures { result ≡ used_cap points.now settings.now }
{
    match settings.cap {
        Some(cap) => cap,
        None => default_cap(points.count()),
    }
}

/// What each kind records.
fn shared_stamp(points: &Points, settings: &Settings) -> Stamp
    ensures { result ≡ shared_stamp points.now settings.now }
{
    Stamp {
        element: element_code(points.element()),
        order: 0,
        start_kind: 0,
        beam: 0,
        num: 0,
        den: 0,
        cap: 0,
        bits: 0,
        max_level: 0,
        list: 0,
        trees: 0,
        leaf: 0,
        rounds: 0,
        passes: 0,
        seed: settings.seed,
        floor: 0,
        digest: digest_of(points),
    }
}

fn vamana_stamp(points: &Points, settings: &Settings) -> Stamp
    ensures { result ≡ stamp_by kinds.Vamana points.now settings.now }
{
    let mut stamp = shared_stamp(points, settings);
    stamp.order = order_code(settings.order);
    stamp.start_kind = start_code(settings.start);
    stamp.beam = settings.beam;
    stamp.num = settings.num;
    stamp.den = settings.den;
    stamp.cap = used_cap(points, settings);
    stamp.passes = settings.passes;
    stamp
}

fn hnsw_stamp(points: &Points, settings: &Settings) -> Stamp
    ensures { result ≡ stamp_by kinds.Hnsw points.now settings.now }
{
    let mut stamp = shared_stamp(points, settings);
    stamp.order = order_code(settings.order);
    stamp.beam = settings.beam;
    stamp.cap = used_cap(points, settings);
    stamp.bits = settings.bits;
    stamp.max_level = settings.max_level;
    stamp
}

fn nnd_stamp(points: &Points, settings: &Settings) -> Stamp
    ensures { result ≡ stamp_by kinds.Nnd points.now settings.now }
{
    let mut stamp = shared_stamp(points, settings);
    stamp.start_kind = start_code(settings.start);
    stamp.num = settings.num;
    stamp.den = settings.den;
    stamp.list = settings.list;
    stamp.trees = settings.trees;
    stamp.leaf = settings.leaf;
    stamp.rounds = settings.rounds;
    stamp.floor = settings.floor;
    stamp
}
