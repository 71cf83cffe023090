//! What holds of the steps of boxes, for callers to cite. Nothing here is done at run time.
ghost use Rattle.box_trace.specs.Short.{BoxesAreShort};

/// Nothing is done. The clause tells a caller that the own items of a box have at most
/// 2,000,000,000 bytes, in either version, where its universe is no larger than a script's.
pub fn boxes_are_short()
    ensures { BoxesAreShort }
{}
