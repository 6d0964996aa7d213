//! Laws of regions and of lists of changes, as contracts of functions that do nothing.

ghost use Rattle.region.specs.Laws.{PointsDecide, EachLayerOnce};

/// What a region covers decides what it touches.
pub fn points_decide_touching()
    ensures { PointsDecide }
{}

/// The change of a layer is the only element of the list that names it.
pub fn each_layer_is_listed_once()
    ensures { EachLayerOnce }
{}
