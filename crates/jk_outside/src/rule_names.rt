//! The names of the rules.

ghost use Rattle.std.specs.Prelude.{◌≡◌};
ghost use Rattle.jk_model.specs.Output.{rule_text};

use jk_model::Rule;

/// A rule's name, as lines and documents have it.
pub(crate) fn rule_name(rule: Rule) -> &'static [u8]
    ensures { result.now ≡ rule_text rule }
{
    match rule {
        Rule::L1 => b"L1",
        Rule::L2 => b"L2",
        Rule::L3 => b"L3",
        Rule::L4 => b"L4",
        Rule::L5 => b"L5",
        Rule::L6 => b"L6",
        Rule::L7 => b"L7",
        Rule::L8 => b"L8",
        Rule::C1 => b"C1",
        Rule::C2 => b"C2",
        Rule::C3 => b"C3",
        Rule::C4 => b"C4",
        Rule::C5 => b"C5",
        Rule::C6 => b"C6",
        Rule::C7 => b"C7",
        Rule::C8 => b"C8",
        Rule::C9 => b"C9",
        Rule::C10 => b"C10",
        Rule::C11 => b"C11",
        Rule::C12 => b"C12",
        Rule::C13 => b"C13",
        Rule::C14 => b"C14",
        Rule::C15 => b"C15",
        Rule::C16 => b"C16",
        Rule::C17 => b"C17",
        Rule::C18 => b"C18",
        Rule::C19 => b"C19",
        Rule::C20 => b"C20",
        Rule::C21 => b"C21",
        Rule::C22 => b"C22",
        Rule::C23 => b"C23",
        Rule::C24 => b"C24",
        Rule::C25 => b"C25",
        Rule::C26 => b"C26",
        Rule::C27 => b"C27",
    }
}
