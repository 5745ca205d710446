//! The laws. The functions have no bodies: each stands for its clauses.

ghost use Rattle.heap_laws.specs.LaidOutObjects.{KnownValuesAreSmall, NamedShapesHaveClasses, OneTypeIsOneKind, SealedObjectsAreLaidOut, WrittenObjectsAreAlike};

/// A sealed object has a value for each field of its class, by its kind, and stays alike when it is written.
pub fn objects_are_laid_out()
    ensures laid_out { SealedObjectsAreLaidOut }
    ensures written { WrittenObjectsAreAlike }
{}

/// Values of one type are of one kind, and a value that is known in a store fits 32 bits.
pub fn values_are_of_one_kind()
    ensures kind { OneTypeIsOneKind }
    ensures small { KnownValuesAreSmall }
{}

/// What a domain may make has its classes.
pub fn shapes_have_classes()
    ensures { NamedShapesHaveClasses }
{}
