//! A changed row.

/// An id with its new row.
#[derive(Drop)]
pub(crate) struct ChangedRow {
    pub id: u32,
    pub row: Vec<u32>,
}
