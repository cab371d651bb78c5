//! The digest of points, one point after another.
ghost use Rattle.std.specs.Prelude.{◌≡◌, ◌++◌, ◌≤◌, ℕ, List, length};
ghost use Rattle.ann_defs.specs.declared.limits.TheConstants.{MAX_DIM};
ghost use Rattle.bin_files.specs.Points.{file_bytes, text};
ghost use Rattle.bin_files.specs.Write.{header_text};
ghost use Rattle.sha2.specs.Hashers.{Holds256};
ghost use Rattle.sha2.specs.Sha256.{sha256};

use ann_defs::{Element, MAX_DIM};
use bin_files::Points;
use sha2::{Digest, Sha256};

/// The SHA-256 of the text of points: of the file that holds them.
///
/// It takes no memory. The numbers of a point are hashed where they lie, those of `I8` as their bytes in a file, which
/// are made in a buffer of 2,048 bytes.
pub fn digest_of(points: &Points) -> [u8; 32]
    ensures { result ≡ sha256 (text points.now) }
{
    let mut hasher = Sha256::new();
    hasher.update(header_of(points));
    let mut room = [0u8; MAX_DIM as usize];
    for id in 0..points.count() {
        add_point(&mut hasher, points.element(), points.at(id), &mut room);
    }
    hasher.finalize()
}

/// The eight bytes before the points.
fn header_of(points: &Points) -> [u8; 8]
    ensures { result ≡ header_text points.now.vectors }
{
    let [a, b, c, d] = points.count().to_le_bytes();
    let [e, f, g, h] = points.dim().to_le_bytes();
    [a, b, c, d, e, f, g, h]
}

/// Adds the bytes of a point to what is hashed, by what its numbers stand for.
fn add_point(hasher: &mut Sha256, element: Element, stored: &[u8], room: &mut [u8])
    requires room { length stored.now ≤ length room.old }
    ensures added { (m : List ℕ) → Holds256 hasher.old m → Holds256 hasher.new (m ++ file_bytes element stored.now) }
    ensures room { length room.new ≡ length room.old }
{
    match element {
        Element::U8 => hasher.update(stored),
        Element::I8 => {
            let turned = &mut room[..stored.len()];
            turned.copy_from_slice(stored);
            turn(turned);
            hasher.update(&*turned);
        }
    }
}

/// Turns stored numbers of `I8` into their bytes in a file.
fn turn(bytes: &mut [u8])
    ensures { bytes.new ≡ file_bytes Element.I8 bytes.old }
{
    for byte in bytes.iter_mut() {
        *byte = byte.wrapping_add(128);
    }
}
