//! Digests of points, against those that `hashlib` of Python gives for their files.
use ann_defs::Element;
use ann_shelf::MemShelf;
use bin_files::read_points_as;
use points_digest::digest_of;
use std::test::Fail;

// Four points of one number.
const FOUR: [u8; 12] = [4, 0, 0, 0, 1, 0, 0, 0, 0, 10, 20, 30];

const OF_FOUR: [u8; 32] = [
    0x01, 0x07, 0xed, 0xb8, 0xbf, 0x12, 0xa2, 0x0c, 0x27, 0x57, 0x48, 0xc8, 0x7e, 0x5c, 0x28, 0x46,
    0xcb, 0xe0, 0xf9, 0xe0, 0x5e, 0xec, 0x24, 0x48, 0x6c, 0x8c, 0xfe, 0x0e, 0xd4, 0x77, 0x37, 0x47,
];

// Four others: -20, -10, 0 and 10 where bytes are signed.
const SIGNED: [u8; 12] = [4, 0, 0, 0, 1, 0, 0, 0, 0xec, 0xf6, 0, 10];

const OF_SIGNED: [u8; 32] = [
    0x82, 0x2b, 0xea, 0xf5, 0xad, 0x59, 0x43, 0x28, 0x77, 0x0f, 0x41, 0x9d, 0xa1, 0x4c, 0x5f, 0xd7,
    0x49, 0x45, 0xa7, 0x5d, 0x07, 0x35, 0x2e, 0xe5, 0x23, 0x39, 0x45, 0x02, 0x52, 0x07, 0x29, 0x9e,
];

const OF_MANY: [u8; 32] = [
    0x7d, 0x30, 0x95, 0x92, 0xc2, 0x78, 0x69, 0xf4, 0x72, 0x71, 0x48, 0x71, 0x1e, 0x4c, 0xf8, 0x49,
    0x73, 0xde, 0xfb, 0xea, 0xe4, 0x7b, 0x95, 0x5e, 0xce, 0x1e, 0xbf, 0x14, 0x5d, 0xd5, 0xbe, 0xc9,
];

// The file of 100 points of 13 numbers, which are 3, 10, 17 and so on, and the rest where they pass a byte.
fn file_of_many() -> [u8; 1308] {
    let mut file = [0u8; 1308];
    let mut next = 3u8;
    for byte in file.iter_mut().skip(8) {
        *byte = next;
        next = next.wrapping_add(7);
    }
    file[0] = 100;
    file[4] = 13;
    file
}

#[test]
fn the_digest_of_points_is_that_of_their_file(rt: HostRuntime) -> Result<(), Fail> {
    let many = file_of_many();
    let table: [(&[u8], [u8; 32]); 3] = [(&FOUR, OF_FOUR), (&SIGNED, OF_SIGNED), (&many, OF_MANY)];
    for (file, digest) in table {
        let mut shelf = MemShelf::new(rt.alloc());
        shelf.put("points", file)?;
        for element in [Element::U8, Element::I8] {
            let points = read_points_as(rt.alloc(), &mut shelf, "points", element)?;
            assert!(rt; digest_of(&points) == digest);
        }
    }
    Ok(())
}
