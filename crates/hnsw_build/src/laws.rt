//! What the layers amount to, as a function whose contract it is. It does nothing when it runs.
ghost use Rattle.hnsw_build.specs.Laws.{LayersStayGood};

/// Batch after batch, each layer has for each of its ids at most `degree` distinct other ids of the layer, in layer 0
/// twice as many, and no row for any other id.
pub fn layers_stay_good()
    ensures { LayersStayGood }
{}
