//! The laws. The functions have no bodies: each stands for its clauses.

ghost use Rattle.jk_model_sealing.specs.FittingFrames.{FitsAsTop, FitsAtCall};
ghost use Rattle.heap_laws.specs.RaisableObjects.{MayMeetRaise};
ghost use Rattle.heap_laws.specs.CostsOfHeaps.{AlikeObjectsCostTheSame, HeapsCostTogether, WritingCostsNothing};
ghost use Rattle.heap_laws.specs.FreshNames.{FittingObjectsAreMade, NamesAreFree};
ghost use Rattle.heap_laws.specs.Growth.{GrowthGoesOn, HeapsGrowByNothing, LikenessGoesOn, MakingGrows, ObjectsAreAlikeThemselves, WritingGrows};
ghost use Rattle.heap_laws.specs.NamedObjects.{MadeNamesDiffer, MadeObjectsAreThere, NothingElseIsThere, OldObjectsStay, OtherObjectsStay, WrittenNamesDiffer, WrittenObjectsAreThere};
ghost use Rattle.heap_laws.specs.SealedChanges.{LiteralsStaySealed, MadeInsidesStaySealed, NewObjectsAreSealed, StatesStaySealed, StaticsStaySealed, WrittenInsidesStaySealed};
ghost use Rattle.heap_laws.specs.StillFitting.{CallersFitStill, DeclaredIsHeldStill, FramesFitHereStill, FramesHoldStill, FramesKnowStill, ManyValuesFitStill, ObjectsAreSealedStill, ObjectsKeepTheirClass, RowsOfFramesFitStill, SealedFramesStay, ThrowablesStay, TopFramesFitStill, ValuesAreKnownStill, ValuesFitStill};

/// A heap grows by nothing, by objects that are made in it, and where an object becomes another one that is alike; and what grew twice
/// is grown.
pub fn heaps_grow()
    ensures alike { ObjectsAreAlikeThemselves }
    ensures alike_twice { LikenessGoesOn }
    ensures nothing { HeapsGrowByNothing }
    ensures twice { GrowthGoesOn }
    ensures made { MakingGrows }
    ensures written { WritingGrows }
{}

/// Under each name stands what stood there, what was made under it, or what was written there; and names that differed still do.
pub fn objects_are_found()
    ensures old { OldObjectsStay }
    ensures made { MadeObjectsAreThere }
    ensures nothing_else { NothingElseIsThere }
    ensures written { WrittenObjectsAreThere }
    ensures others { OtherObjectsStay }
    ensures made_differ { MadeNamesDiffer }
    ensures written_differ { WrittenNamesDiffer }
{}

/// There are always names that a heap lacks, and so what fits can be made.
pub fn names_are_free()
    ensures free { NamesAreFree }
    ensures made { FittingObjectsAreMade }
{}

/// Objects cost what they cost apart, and writing costs nothing.
pub fn costs_add_up()
    ensures together { HeapsCostTogether }
    ensures alike { AlikeObjectsCostTheSame }
    ensures written { WritingCostsNothing }
{}

/// Values that fitted still fit, and names that were known are known.
pub fn values_fit_still()
    ensures values { ValuesFitStill }
    ensures many { ManyValuesFitStill }
    ensures frames { FramesHoldStill }
    ensures declared { DeclaredIsHeldStill }
    ensures known { ValuesAreKnownStill }
{}

/// Objects that were sealed, or of a class, still are, and new ones of shapes that the domain may make are.
pub fn objects_stay_sealed()
    ensures new { NewObjectsAreSealed }
    ensures sealed { ObjectsAreSealedStill }
    ensures of_class { ObjectsKeepTheirClass }
    ensures throwables { ThrowablesStay }
{}

/// Frames that fitted where they stand still fit, and all frames of a segment together.
pub fn frames_fit_still()
    ensures here { FramesFitHereStill }
    ensures top { TopFramesFitStill }
    ensures callers { CallersFitStill }
    ensures known { FramesKnowStill }
    ensures running_rows { RowsOfFramesFitStill FitsAsTop }
    ensures calling_rows { RowsOfFramesFitStill FitsAtCall }
    ensures running { SealedFramesStay FitsAsTop }
    ensures calling { SealedFramesStay FitsAtCall }
    ensures raising { SealedFramesStay MayMeetRaise }
{}

/// A domain stays sealed inside where objects are made that fit, where an object gets contents that fit, where a static field gets
/// a value that fits, where a text gets an object, and whatever state a class gets.
pub fn insides_stay_sealed()
    ensures made { MadeInsidesStaySealed }
    ensures written { WrittenInsidesStaySealed }
    ensures statics { StaticsStaySealed }
    ensures literals { LiteralsStaySealed }
    ensures states { StatesStaySealed }
{}
