//! Tests of files: in memory and in real folders, of points, and their digests.
#![tactic(auto)]

#[cfg(test)]
mod digests;
#[cfg(test)]
mod folders;
#[cfg(test)]
mod names;
#[cfg(test)]
mod point_files;
#[cfg(test)]
mod shelves;
