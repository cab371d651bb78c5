//! What a descent amounts to, as a function whose contract it is. It does nothing when it runs.
ghost use Rattle.layered_search.specs.Laws.{OneLayerIsSearched};

/// In an index with one layer a descent is the search of that layer from the start, as for Vamana.
pub fn one_layer_is_searched()
    ensures { OneLayerIsSearched }
{}
