//! The numbers before the layers.
ghost use Rattle.std.specs.Prelude.{◌≡◌, ◌≤◌, ◌<◌, ℕ, length, slice_index, None, IfOk, IfSome, IsErrOf};
ghost use Rattle.ann_shelf.specs.Files.{bytes_of};
ghost use Rattle.ann_shelf.specs.Shown.{OnlyReads};
ghost use Rattle.graph_files.specs.Grammar.{header_at};
ghost use Rattle.graph_files.specs.Header.{header_in, is_version, is_read, form_fault, limit_fault};
ghost use Rattle.graph_files.specs.Reading.{AreBytesIn, Gives, Shows};
ghost use Rattle.graph_rows.specs.WellFormed.{layers_fit, greatest_degree, base_bound};

use crate::window::Window;
use crate::{IndexFault, IndexRule};
use ann_defs::{MAX_DEGREE, MAX_DIM, MAX_POINTS, MAX_WORDS};
use ann_shelf::{Quantity, Shelf};
use bin_files::u32_le;

// The text PANN as a number.
pub(crate) const MAGIC: u32 = 1313751376;

/// What stands in the first bytes.
#[derive(Clone, Copy)]
pub(crate) struct Header {
    pub(crate) magic: u32,
    pub(crate) version: u32,
    pub(crate) kind: u32,
    pub(crate) count: u32,
    pub(crate) dim: u32,
    pub(crate) degree: u32,
    pub(crate) start: u32,
    pub(crate) layers: u32,
}

// Whether files of a version are read.
fn is_read_version(version: u32) -> bool
    ensures { result ≡ is_version version }
{
    version == 1 || version == 2
}

// Whether files of a kind are read.
fn is_read_kind(kind: u32) -> bool
    ensures { result ≡ is_read kind }
{
    1 <= kind && kind <= 3
}

// Whether a kind may have so many layers.
fn may_have(kind: u32, layers: u32) -> bool
    ensures { result ≡ layers_fit kind layers }
{
    if kind == 2 {
        0 < layers && layers < 17
    } else {
        layers == 1
    }
}

// The greatest degree of a kind.
fn max_degree(kind: u32) -> u32
    ensures { result ≡ greatest_degree kind }
{
    if kind == 2 { 64 } else { MAX_DEGREE }
}

// The greatest length of a row of layer 0.
pub(crate) fn bound_of(kind: u32, degree: u32) -> u32
    requires { degree ≤ MAX_DEGREE }
    ensures { result ≡ base_bound kind degree }
{
    if kind == 2 { degree + degree } else { degree }
}

// The first field whose value the format does not allow.
pub(crate) fn form_of(h: Header) -> Option<IndexFault>
    ensures { result ≡ form_fault h }
{
    if h.magic != MAGIC {
        return Some(IndexFault::Malformed {
            place: 0,
            rule: IndexRule::Magic,
        });
    }
    if !is_read_version(h.version) {
        return Some(IndexFault::Malformed {
            place: 4,
            rule: IndexRule::Version,
        });
    }
    if !is_read_kind(h.kind) {
        return Some(IndexFault::Malformed {
            place: 8,
            rule: IndexRule::Kind,
        });
    }
    if h.count == 0 {
        return Some(IndexFault::Malformed {
            place: 12,
            rule: IndexRule::ZeroCount,
        });
    }
    if h.dim == 0 {
        return Some(IndexFault::Malformed {
            place: 16,
            rule: IndexRule::ZeroDim,
        });
    }
    if h.degree == 0 {
        return Some(IndexFault::Malformed {
            place: 20,
            rule: IndexRule::Degree,
        });
    }
    if h.start >= h.count {
        return Some(IndexFault::Malformed {
            place: 24,
            rule: IndexRule::Start,
        });
    }
    if !may_have(h.kind, h.layers) {
        return Some(IndexFault::Malformed {
            place: 28,
            rule: IndexRule::Layers,
        });
    }
    None
}

// The first quantity over its limit.
pub(crate) fn limit_of(h: Header) -> Option<IndexFault>
    ensures { result ≡ limit_fault h }
{
    if MAX_POINTS < h.count {
        return Some(IndexFault::TooLarge {
            name: Quantity::Count,
            value: u64::from(h.count),
            limit: u64::from(MAX_POINTS),
        });
    }
    if MAX_DIM < h.dim {
        return Some(IndexFault::TooLarge {
            name: Quantity::Dim,
            value: u64::from(h.dim),
            limit: u64::from(MAX_DIM),
        });
    }
    let most = max_degree(h.kind);
    if most < h.degree {
        return Some(IndexFault::TooLarge {
            name: Quantity::Degree,
            value: u64::from(h.degree),
            limit: u64::from(most),
        });
    }
    let words = u64::from(h.count) * (u64::from(bound_of(h.kind, h.degree)) + 1);
    if MAX_WORDS < words {
        return Some(IndexFault::TooLarge {
            name: Quantity::Words,
            value: words,
            limit: MAX_WORDS,
        });
    }
    None
}

// The eight words at the front of a file.
fn header_of(bytes: &[u8]) -> Header
    requires { 32 ≤ length bytes.now }
    ensures value { result ≡ header_in bytes.now }
    ensures are_bytes { (i : ℕ) → slice_index bytes.now i < 256 }
{
    Header {
        magic: u32_le(bytes, 0),
        version: u32_le(bytes, 4),
        kind: u32_le(bytes, 8),
        count: u32_le(bytes, 12),
        dim: u32_le(bytes, 16),
        degree: u32_le(bytes, 20),
        start: u32_le(bytes, 24),
        layers: u32_le(bytes, 28),
    }
}

/// The header, with its form and its limits checked.
pub(crate) fn read_header<F: Shelf>(
    shelf: &mut F,
    name: &str,
    window: &mut Window,
) -> Result<Header, IndexFault>
    ensures header { IfSome (F.shown shelf.old).held (λ files. Gives (λ h. h) result (header_at (bytes_of files name.now))) }
    ensures form { IfOk result (λ h. form_fault h ≡ None) }
    ensures limits { IfOk result (λ h. limit_fault h ≡ None) }
    ensures bytes { IfOk result (λ _. IfSome (F.shown shelf.old).held (λ files. AreBytesIn (bytes_of files name.now) 0 32)) }
    ensures shows { IfSome (F.shown shelf.old).held (λ files. Shows (bytes_of files name.now) window.new) }
    ensures front { IfOk result (λ _. (window.new.from ≡ 0) × (32 ≤ window.new.len)) }
    ensures ends { IfOk result (λ _. IfSome (F.shown shelf.old).held (λ files. window.new.len < 16384 → window.new.len ≡ length (bytes_of files name.now))) }
    ensures only_reads { OnlyReads (F.shown shelf.old) (F.shown shelf.new) name.now (IsErrOf result IndexFault.Read) }
{
    window.move_to(shelf, name, 0)?;
    if window.len < 32 {
        return Err(IndexFault::Malformed {
            place: window.len as u64,
            rule: IndexRule::ShortHeader,
        });
    }
    let header = header_of(&window.bytes);
    match form_of(header) {
        Some(fault) => return Err(fault),
        None => {}
    }
    match limit_of(header) {
        Some(fault) => Err(fault),
        None => Ok(header),
    }
}
