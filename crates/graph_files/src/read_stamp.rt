//! The stamp of an index, in the first bytes of its file.
ghost use Rattle.std.specs.Prelude.{◌≡◌, ◌+◌, ◌<◌, ◌≤◌, ◌^◌, List, ℕ, length, take, IfOk, IfErr, Some, None, slice_index};
ghost use Rattle.graph_rows.specs.Stamps.{stamp_ranges, where_named, is_floor, IsStamp, IsStamped};
ghost use Rattle.graph_files.specs.Grammar.{stamp_at, layers_place};
ghost use Rattle.graph_files.specs.Reading.{AreBytesIn, Gives, Shows};
ghost use Rattle.bin_files.specs.Points.{u32_at};
ghost use Rattle.graph_files.specs.Stamping.{u64_at, stamp_in, fields_fault, last_fault, stamp_fault};

use crate::header::Header;
use crate::window::Window;
use crate::{IndexFault, IndexRule, Stamp};
use ann_defs::{MAX_BEAM, MAX_POINTS};
use bin_files::u32_le;

// How many bytes stand before the layers of a file with a stamp.
const FRONT: usize = 136;

// The least and the greatest value of a field of some kinds, and of none.
fn range(named: bool, least: u32, greatest: u32) -> (u32, u32)
    ensures { result ≡ where_named named least greatest }
{
    if named { (least, greatest) } else { (0, 0) }
}

// The ranges of the words before the seed.
fn ranges_of(kind: u32, num: u32) -> [(u32, u32); 14]
    ensures { result ≡ stamp_ranges kind num }
{
    let in_batches = kind == 1 || kind == 2;
    let flat = kind == 1 || kind == 3;
    [
        (1, 2),
        range(in_batches, 1, 2),
        range(flat, 1, 2),
        range(in_batches, 1, MAX_BEAM),
        range(flat, 1, 1000),
        range(flat, 1, num),
        range(in_batches, 1, MAX_POINTS),
        range(kind == 2, 1, 8),
        range(kind == 2, 0, 15),
        range(kind == 3, 1, 128),
        range(kind == 3, 1, 64),
        range(kind == 3, 2, 1024),
        range(kind == 3, 0, 64),
        range(kind == 1, 1, 2),
    ]
}

// A file that ends before a field is whole.
fn short(front: &[u8]) -> IndexFault
    ensures { result ≡ IndexFault.Malformed (length front.now) IndexRule.Short }
{
    IndexFault::Malformed {
        place: front.len() as u64,
        rule: IndexRule::Short,
    }
}

// The first word that isn't whole or not in its range.
fn fields_of(ranges: &[(u32, u32)], front: &[u8]) -> Option<IndexFault>
    requires { length ranges.now ≤ 14 }
    ensures { result ≡ fields_fault ranges.now front.now 32 }
{
    let mut at = 32usize;
    for range in ranges {
        if front.len() < at + 4 {
            return Some(short(front));
        }
        let value = u32_le(front, at);
        if value < range.0 || range.1 < value {
            return Some(IndexFault::Malformed {
                place: at as u64,
                rule: IndexRule::Stamp,
            });
        }
        at += 4;
    }
    None
}

// The number in eight bytes from a place on.
fn u64_le(bytes: &[u8], at: usize) -> u64
    requires { at + 8 ≤ length bytes.now }
    ensures { result ≡ u64_at bytes.now at }
{
    let mut eight = [0u8; 8];
    eight.copy_from_slice(&bytes[at..at + 8]);
    u64::from_le_bytes(eight)
}

// Whether an index of a kind may have this floor.
fn may_have(kind: u32, floor: u64) -> bool
    ensures { result ≡ is_floor kind floor }
{
    kind == 3 || floor == 0
}

// The same of seed, floor and digest.
fn last_of(kind: u32, front: &[u8]) -> Option<IndexFault>
    ensures { result ≡ last_fault kind front.now }
{
    if front.len() < 104 {
        return Some(short(front));
    }
    if !may_have(kind, u64_le(front, 96)) {
        return Some(IndexFault::Malformed {
            place: 96,
            rule: IndexRule::Stamp,
        });
    }
    if front.len() < FRONT {
        return Some(short(front));
    }
    None
}

// The numerator of alpha, where the file has it and the denominator.
fn num_of(front: &[u8]) -> u32
    ensures { 56 ≤ length front.now → result ≡ u32_at front.now 48 }
{
    if front.len() < 56 {
        0
    } else {
        u32_le(front, 48)
    }
}

// The first broken rule of a stamp.
fn fault_of(kind: u32, front: &[u8]) -> Option<IndexFault>
    ensures { result ≡ stamp_fault kind front.now }
{
    match fields_of(&ranges_of(kind, num_of(front)), front) {
        Some(fault) => Some(fault),
        None => last_of(kind, front),
    }
}

// The stamp in the first bytes of a file.
fn stamp_of(front: &[u8]) -> Stamp
    requires { length front.now ≡ 136 }
    ensures value { result ≡ stamp_in front.now }
    ensures seed { result.seed < 2 ^ 64 }
    ensures floor { result.floor < 2 ^ 64 }
    ensures are_bytes { (i : ℕ) → slice_index front.now i < 256 }
{
    let mut digest = [0u8; 32];
    digest.copy_from_slice(&front[104..FRONT]);
    let seed = u64_le(front, 88);
    let floor = u64_le(front, 96);
    Stamp {
        element: u32_le(front, 32),
        order: u32_le(front, 36),
        start_kind: u32_le(front, 40),
        beam: u32_le(front, 44),
        num: u32_le(front, 48),
        den: u32_le(front, 52),
        cap: u32_le(front, 56),
        bits: u32_le(front, 60),
        max_level: u32_le(front, 64),
        list: u32_le(front, 68),
        trees: u32_le(front, 72),
        leaf: u32_le(front, 76),
        rounds: u32_le(front, 80),
        passes: u32_le(front, 84),
        seed,
        floor,
        digest,
    }
}

// The first bytes that a window at the front of a file shows, up to the end of a stamp.
fn front_of(window: &Window) -> &[u8]
    requires { window.now.from ≡ 0 }
    ensures front { (file : List ℕ) → Shows file window.now → (window.now.len < 16384 → window.now.len ≡ length file) → result.now ≡ take 136 file }
    ensures shown { (file : List ℕ) → Shows file window.now → length result.now ≤ length file }
    ensures len { length result.now ≤ 136 }
{
    &window.bytes[..window.len.min(FRONT)]
}

// The stamp in the first bytes of a file of version 2, of which no rule is broken.
fn read_front(kind: u32, front: &[u8]) -> Result<Stamp, IndexFault>
    requires { length front.now ≤ 136 }
    ensures sound { IfOk result (λ s. (stamp_fault kind front.now ≡ None) × (s ≡ stamp_in front.now)) }
    ensures allowed { IfOk result (IsStamp kind) }
    ensures broken { IfErr result (λ fault. stamp_fault kind front.now ≡ Some fault) }
    ensures whole { IfOk result (λ _. length front.now ≡ 136) }
    ensures are_bytes { IfOk result (λ _. (i : ℕ) → slice_index front.now i < 256) }
{
    match fault_of(kind, front) {
        Some(fault) => return Err(fault),
        None => {}
    }
    Ok(stamp_of(front))
}

/// The stamp of a file with this header, whose first bytes a window shows; none where it is of version 1.
pub(crate) fn read_stamp(window: &Window, h: Header) -> Result<Option<Stamp>, IndexFault>
    requires { window.now.from ≡ 0 }
    ensures stamp { (file : List ℕ) → Shows file window.now → (window.now.len < 16384 → window.now.len ≡ length file) → Gives (λ s. s) result (stamp_at h file) }
    ensures allowed { IfOk result (IsStamped h.kind) }
    ensures bytes { IfOk result (λ _. (file : List ℕ) → Shows file window.now → (window.now.len < 16384 → window.now.len ≡ length file) → AreBytesIn file 0 32 → AreBytesIn file 0 (layers_place h.version)) }
    ensures told { IfErr result (λ fault. fault ≡ IndexFault.Read → ⊥) }
{
    if h.version == 1 {
        return Ok(None);
    }
    let stamp = read_front(h.kind, front_of(window))?;
    Ok(Some(stamp))
}
