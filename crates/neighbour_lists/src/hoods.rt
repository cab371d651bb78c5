//! Neighbourhoods of all points, as rows.
use graph_rows::FlatGraph;

/// Neighbourhoods in two parts: the list of each point, and those of its reverse neighbours that its list doesn't hold.
#[derive(Drop)]
pub(crate) struct Hoods {
    pub(crate) rows: FlatGraph,
    pub(crate) others: FlatGraph,
}
