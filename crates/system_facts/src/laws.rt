//! The laws. The functions have no bodies: each stands for its clauses.

ghost use Rattle.std.specs.Prelude.{codes};
ghost use Rattle.system_facts.specs.ClosedClasses.{IsClosedByName, NothingIsBelowClosed};
ghost use Rattle.system_facts.specs.DescriptorReader.{IsExample};
ghost use Rattle.system_facts.specs.SystemLayouts.{LayoutsAreListed, ListsNone, ListsText, MessagesComeFirst};
ghost use Rattle.system_facts.specs.SystemTypes.{FieldsAreRead, MethodsAreRead};

/// The types of the fields and methods of system classes are those that their descriptors in the table say, as a reader reads them.
pub fn types_are_read()
    ensures fields { FieldsAreRead }
    ensures methods { MethodsAreRead }
    ensures example { IsExample }
{}

/// Objects of system classes are made of the fields that the table lists: of java/lang/Object, java/lang/String and
/// java/io/PrintStream none, of the buffers and of java/lang/Throwable a text; and an object of a class below
/// java/lang/Throwable begins with its message.
pub fn layouts_are_listed()
    ensures layouts { LayoutsAreListed }
    ensures object { ListsNone (codes "java/lang/Object") }
    ensures string { ListsNone (codes "java/lang/String") }
    ensures string_buffer { ListsText (codes "java/lang/StringBuffer") }
    ensures string_builder { ListsText (codes "java/lang/StringBuilder") }
    ensures print_stream { ListsNone (codes "java/io/PrintStream") }
    ensures throwable { ListsText (codes "java/lang/Throwable") }
    ensures messages { MessagesComeFirst }
{}

/// Nothing stands below a closed system class, where no class of a folder extends one. Texts, their buffers and streams are closed.
pub fn closed_classes_are_lowest()
    ensures lowest { NothingIsBelowClosed }
    ensures string { IsClosedByName (codes "java/lang/String") }
    ensures string_buffer { IsClosedByName (codes "java/lang/StringBuffer") }
    ensures string_builder { IsClosedByName (codes "java/lang/StringBuilder") }
    ensures print_stream { IsClosedByName (codes "java/io/PrintStream") }
{}
