//! The laws. The functions have no bodies: each stands for its clauses.

ghost use Rattle.decided_lookups.specs.Decisions.{AccessIsDecided, ClassAccessIsDecided, FieldsAreDecided, ImplementingIsDecided, InterfacesAreDecided, MethodsAreDecided, OverridingIsDecided, PackagesAreDecided, RunningIsDecided, SubclassesAreDecided};
ghost use Rattle.decided_lookups.specs.Findings.{CallsSelect, FieldsAreFound, FrontsAreLongest, HandlersAreFound, MethodsAreFound, RunnersAreFound};

/// What is asked of classes and of members by their records holds or doesn't.
pub fn records_are_decided()
    ensures interfaces { InterfacesAreDecided }
    ensures subclasses { SubclassesAreDecided }
    ensures implementing { ImplementingIsDecided }
    ensures packages { PackagesAreDecided }
    ensures fields { FieldsAreDecided }
    ensures methods { MethodsAreDecided }
    ensures access { AccessIsDecided }
    ensures class_access { ClassAccessIsDecided }
    ensures overriding { OverridingIsDecided }
    ensures running { RunningIsDecided }
{}

/// Each walk upwards finds the first member that suits, or nothing, and each call selects a method, or none.
pub fn walks_find()
    ensures fields { FieldsAreFound }
    ensures methods { MethodsAreFound }
    ensures runners { RunnersAreFound }
    ensures selected { CallsSelect }
{}

/// A search of a list by a test finds the first item that passes, or none, and a longest front that passes.
pub fn searches_end()
    ensures handlers { HandlersAreFound }
    ensures fronts { FrontsAreLongest }
{}
