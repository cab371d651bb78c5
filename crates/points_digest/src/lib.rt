//! The SHA-256 digest of a point set: that of the one text of its file, in either format.
//!
//! `digest_of` hashes the eight bytes of the header and then the bytes of each point as they stand in a file, so the
//! digest of points that were read is the digest of the file that they were read from.
#![tactic(auto)]

mod digest;

pub use digest::digest_of;
