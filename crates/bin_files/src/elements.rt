// Stored numbers and the bytes of a file.
ghost use Rattle.std.specs.Prelude.{◌≡◌, ◌<◌, ℕ, slice_index};
ghost use Rattle.bin_files.specs.Points.{file_bytes};

use ann_defs::Element;

// Turns the bytes of a file into the stored numbers, or these into those: the same step both ways.
pub(crate) fn turn(element: Element, bytes: &mut [u8])
    ensures there { bytes.new ≡ file_bytes element bytes.old }
    ensures back { bytes.old ≡ file_bytes element bytes.new }
    ensures are_bytes { (i : ℕ) → slice_index bytes.new i < 256 }
{
    match element {
        Element::U8 => {}
        Element::I8 => flip(bytes),
    }
    are_bytes(bytes);
}

// The bytes of a file as stored numbers, in the same memory.
pub(crate) fn turned(element: Element, mut bytes: Vec<u8>) -> Vec<u8>
    ensures there { result.items ≡ file_bytes element bytes.items }
    ensures back { bytes.items ≡ file_bytes element result.items }
    ensures are_bytes { (i : ℕ) → slice_index result.items i < 256 }
{
    turn(element, &mut bytes);
    bytes
}

// Adds 128 to each byte, and leaves out what is over 256.
fn flip(bytes: &mut [u8])
    ensures there { bytes.new ≡ file_bytes Element.I8 bytes.old }
    ensures back { bytes.old ≡ file_bytes Element.I8 bytes.new }
{
    are_bytes(bytes);
    for byte in bytes.iter_mut() {
        *byte = byte.wrapping_add(128);
    }
}

// Each byte is below 256.
pub(crate) fn are_bytes(bytes: &[u8])
    ensures { (i : ℕ) → slice_index bytes.now i < 256 }
{
    let _first = bytes.first();
}
