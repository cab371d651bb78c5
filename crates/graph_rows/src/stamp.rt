//! What an index was built from.

/// The settings of a build and the digest of its points, as numbers. What doesn't belong to the index's kind is 0.
#[derive(Clone, Copy, Debug, PartialEq, Eq)]
pub struct Stamp {
    /// What the stored numbers stand for: 1 for `u8`, 2 for `i8`.
    pub element: u32,
    /// 1 where points were inserted in the order of the file, 2 in a seeded order.
    pub order: u32,
    /// 1 where searches start at the first point, 2 at the medoid.
    pub start_kind: u32,
    pub beam: u32,
    /// Alpha is `num / den`.
    pub num: u32,
    pub den: u32,
    /// The greatest batch that was used.
    pub cap: u32,
    pub bits: u32,
    pub max_level: u32,
    pub list: u32,
    pub trees: u32,
    pub leaf: u32,
    pub rounds: u32,
    pub passes: u32,
    pub seed: u64,
    pub floor: u64,
    /// The SHA-256 of the points' file.
    pub digest: [u8; 32],
}
