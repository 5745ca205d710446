//! What the definitions in `specs/` say of worked examples. The functions have no bodies: each stands
//! for its clauses, and the examples are in `specs/Examples.antt`.

ghost use Rattle.std.specs.Prelude.{◌≡◌, ◌∷◌, ◌++◌, [], Some, None, Ok, Err, length, codes, true};
ghost use Rattle.jk_model.specs.declared.output.Rule.TheVariants.{C1, C2, C4};
ghost use Rattle.jk_model.specs.declared.script.FaultKind.TheVariants.{BadByte, UnknownWord, BadName, BadNumber, Extra, Missing};
ghost use Rattle.jk_model.specs.ClassFile.{IsClass};
ghost use Rattle.jk_model.specs.Examples.{smallest_bytes, smallest, escaped_line, loop_bytes, loop_instrs, switch_bytes, switch_instrs, longs_in_arrays, takes_long_and_text, whole_script, whole_events};
ghost use Rattle.jk_model.specs.Descriptors.{field_text, method_text, method_slots};
ghost use Rattle.jk_model.specs.Instructions.{Decodes, HasFault, IllegalOpcode};
ghost use Rattle.jk_model.specs.Output.{text_of};
ghost use Rattle.jk_model.specs.ReadFaults.{BreaksReading};
ghost use Rattle.jk_model.specs.Script.{words};
ghost use Rattle.jk_model.specs.ScriptGrammar.{events_of, line_event};
ghost use Rattle.jk_model.specs.SystemTable.{system_classes, number_named, first_method_number};
ghost use Rattle.jk_model.specs.Text.{Spells, IsModifiedUtf8};

/// The 53 bytes of the smallest class are a class file, of this record.
pub fn smallest_class()
    ensures { IsClass smallest_bytes smallest }
{}

/// Another magic number at the front of bytes breaks C1 at place 0, the version 50.3 after the right one
/// breaks C2 at place 4, and that class with one byte more breaks C4 at its end.
pub fn broken_files()
    ensures magic { BreaksReading (0xca ∷ 0xfe ∷ 0xba ∷ 0xbf ∷ []) C1 0 }
    ensures version { BreaksReading (0xca ∷ 0xfe ∷ 0xba ∷ 0xbe ∷ 0x00 ∷ 0x03 ∷ 0x00 ∷ 0x32 ∷ []) C2 4 }
    ensures trailing { BreaksReading (smallest_bytes ++ 0x00 ∷ []) C4 53 }
{}

/// A line feed in a printed text is shown as `\u000a`, and a backslash as two.
pub fn escaped_text()
    ensures { text_of (escaped_line ∷ []) ≡ codes "a: x\\u000ab: y\\\\" ++ 10 ∷ [] }
{}

/// Units of two and three bytes, the overlong form of 0 and a lone surrogate among them, and three
/// bytes each of which alone is no text.
pub fn texts_of_units()
    ensures overlong_zero { Spells (0xc0 ∷ 0x80 ∷ []) (0 ∷ []) }
    ensures two_bytes { Spells (0xc3 ∷ 0xa9 ∷ []) (0xe9 ∷ []) }
    ensures surrogate { Spells (0xed ∷ 0xa0 ∷ 0x80 ∷ []) (0xd800 ∷ []) }

    ensures no_zero { ¬ IsModifiedUtf8 (0x00 ∷ []) }
    ensures no_four_bytes { ¬ IsModifiedUtf8 (0xf0 ∷ []) }
    ensures no_half { ¬ IsModifiedUtf8 (0xc3 ∷ []) }
{}

/// What is written of an array of arrays of long, and of a method that takes a long and a text and
/// answers nothing. With a receiver that method has four slots.
pub fn texts_of_types()
    ensures arrays { field_text longs_in_arrays ≡ codes "[[J" }
    ensures method { method_text takes_long_and_text ≡ codes "(JLjava/lang/String;)V" }
    ensures slots { method_slots takes_long_and_text true ≡ 4 }
{}

/// A code of five bytes is three instructions: a short form, a jump back to it, and a return.
pub fn loop_code()
    ensures { Decodes loop_bytes loop_instrs }
{}

/// A code whose second instruction is a switch: two bytes fill the gap, and an offset that leads out of
/// the code gives -1.
pub fn switch_code()
    ensures { Decodes switch_bytes switch_instrs }
{}

/// No opcode stands at place 1.
pub fn opcode_that_is_none()
    ensures { HasFault (0x00 ∷ 0xba ∷ 0x00 ∷ []) IllegalOpcode 1 }
{}

/// There are 45 system classes, and 111 methods of them.
pub fn system_table()
    ensures classes { length system_classes ≡ 45 }
    ensures methods { first_method_number 45 ≡ 111 }
    ensures first { number_named (codes "java/lang/Object") ≡ Some 0 }
    ensures last { number_named (codes "jk/NotCopiableException") ≡ Some 44 }
    ensures no_other { number_named (codes "java/lang/Class") ≡ None }
{}

/// Words stand between blanks and tabs: any number, at the ends of the line too.
pub fn words_of_a_line()
    ensures { words (codes " \tdomain  hello\t") ≡ codes "domain" ∷ codes "hello" ∷ [] }
{}

/// A script with each command stands for its events.
pub fn script_with_each_command()
    ensures { events_of whole_script ≡ Ok whole_events }
{}

/// What is wrong with a line is said of the first word that is wrong, and of the bytes before the words.
pub fn faults_of_lines()
    ensures byte { line_event (codes "turn x " ++ 127 ∷ []) ≡ Err BadByte }
    ensures command { line_event (codes "trun 1") ≡ Err UnknownWord }
    ensures option { line_event (codes "domain a size 1 heap 1") ≡ Err UnknownWord }
    ensures name { line_event (codes "kill a.b c") ≡ Err BadName }
    ensures number { line_event (codes "turn 01") ≡ Err BadNumber }
    ensures range { line_event (codes "domain a heap 63") ≡ Err BadNumber }
    ensures product { line_event (codes "round 1001 1000000 x") ≡ Err BadNumber }
    ensures repeated { line_event (codes "domain a steps 5 steps") ≡ Err Extra }
    ensures extra { line_event (codes "turn 1 2 3") ≡ Err Extra }
    ensures missing { line_event (codes "domain a heap") ≡ Err Missing }
    ensures no_class { line_event (codes "start a") ≡ Err Missing }
{}
