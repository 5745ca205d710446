//! Instructions as they are written.

ghost use Rattle.std.specs.Prelude.{◌≡◌, ◌==◌, ◌↔◌, ◌∷◌, ◌++◌, [], ℕ, ◌≤◌, ℤ, pos, List, not, position, IsTrue, IfOk, MatchOption};
ghost use Rattle.std.specs.List.{list_all};
ghost use Rattle.jk_model.specs.Instructions.{IsKind};
ghost use Rattle.asm_reader.specs.declared.items.Statement.{Statement};
ghost use Rattle.asm_reader.specs.declared.mnemonics.Operands.{Operands};
ghost use Rattle.asm_reader.specs.declared.words.Word.{Word};
ghost use Rattle.asm_reader.specs.declared.words.Word.TheVariants.{Plain};
ghost use Rattle.asm_reader.specs.Finds.{Finds, FindsCase, FindsCases, IsAbove, IsIntConstant, IsLongConstant, IsTextConstant};
ghost use Rattle.asm_reader.specs.Numbers.{decimal_of, IsIntNumber, IsLongNumber};
ghost use Rattle.asm_reader.specs.Statements.{IsLabel, IsStatement};

use crate::items::{Constant, MemberKind, Statement, SwitchLine};
use crate::mnemonics::{Mnemonic, Operands, mnemonic_named};
use crate::numbers::{count_of, decimal, int_number, short_number};
use crate::words::Word;
use jk_model::{List, OutOfMemory};
use std::alloc::Global;

/// Whether a word is without `:`.
fn has_no_colon(word: &[u8]) -> bool
    ensures { result ≡ list_all (λ b. not (b == 58)) word.now }
{
    word.iter().all(|byte| *byte != b':')
}

/// Whether a word may be a label.
pub(crate) fn is_label(word: &[u8]) -> bool
    ensures { IsTrue result ↔ IsLabel word.now }
{
    !word.is_empty() && has_no_colon(word)
}

/// An instruction without operands.
fn simple_of(op: u8, words: &[Word]) -> Option<Statement>
    ensures { Finds op Operands.Nothing words.now result }
{
    if !words.is_empty() {
        return None;
    }
    Some(Statement::Simple(op))
}

/// `sipush`: a number of two bytes.
fn push_of(words: &[Word]) -> Option<Statement>
    ensures { (op : ℕ) → Finds op Operands.Number words.now result }
{
    let [Word::Plain(number)] = words else {
        return None;
    };
    Some(Statement::Push(short_number(number.as_slice())?))
}

/// Whether a word is this one, without quotes.
fn is_plain(word: &Word, bytes: &[u8]) -> bool
    ensures { IsTrue result ↔ (word.now ≡ Plain bytes.now) }
{
    matches!(word, Word::Plain(word) if word.as_slice() == bytes)
}

/// `int`, and a number of four bytes.
fn int_of(words: &[Word]) -> Option<i32>
    ensures { MatchOption result ((n : ℤ) → IsIntNumber n → IsIntConstant n words.now → ⊥)
        (λ n. IsIntNumber n × IsIntConstant n words.now) }
{
    match words {
        [kind, Word::Plain(number)] if is_plain(kind, b"int") => int_number(number.as_slice()),
        _ => None,
    }
}

/// `long`, and a number of eight bytes.
fn long_of(words: &[Word]) -> Option<i64>
    ensures { MatchOption result ((n : ℤ) → IsLongNumber n → IsLongConstant n words.now → ⊥)
        (λ n. IsLongNumber n × IsLongConstant n words.now) }
{
    match words {
        [kind, Word::Plain(number)] if is_plain(kind, b"long") => decimal(number.as_slice()),
        _ => None,
    }
}

/// `text`, and a text.
fn text_of(words: &[Word]) -> Option<&[u8]>
    ensures { MatchOption result ((text : List ℕ) → IsTextConstant text words.now → ⊥)
        (λ text. IsTextConstant text.now words.now) }
{
    match words {
        [kind, Word::Quoted(text)] if is_plain(kind, b"text") => Some(text.as_slice()),
        _ => None,
    }
}

/// `ldc_w`: an int or a text.
fn single_constant_of(alloc: Global, words: &[Word]) -> Result<Option<Statement>, OutOfMemory>
    ensures { IfOk result (λ found. (op : ℕ) → Finds op Operands.SingleConstant words.now found) }
{
    if let Some(number) = int_of(words) {
        return Ok(Some(Statement::Load(Constant::Int(number))));
    }
    let Some(text) = text_of(words) else {
        return Ok(None);
    };
    let text = List::from_slice(alloc, text)?;
    Ok(Some(Statement::Load(Constant::Text(text))))
}

/// `ldc2_w`: a long.
fn wide_constant_of(words: &[Word]) -> Option<Statement>
    ensures { (op : ℕ) → Finds op Operands.WideConstant words.now result }
{
    Some(Statement::Load(Constant::Long(long_of(words)?)))
}

/// A load or a store of a local.
fn on_local_of(op: u8, words: &[Word]) -> Option<Statement>
    ensures { Finds op Operands.Local words.now result }
{
    let [Word::Plain(local)] = words else {
        return None;
    };
    Some(Statement::OnLocal(op, count_of(local.as_slice())?))
}

/// `iinc`: a local, and a step.
fn increment_of(words: &[Word]) -> Option<Statement>
    ensures { (op : ℕ) → Finds op Operands.LocalAndStep words.now result }
{
    let [Word::Plain(local), Word::Plain(step)] = words else {
        return None;
    };
    let local = count_of(local.as_slice())?;
    Some(Statement::Increment(local, short_number(step.as_slice())?))
}

/// A jump to a label.
fn jump_of(alloc: Global, op: u8, words: &[Word]) -> Result<Option<Statement>, OutOfMemory>
    ensures { IfOk result (Finds op Operands.Label words.now) }
{
    match words {
        [Word::Plain(label)] if is_label(label.as_slice()) => {
            let label = List::from_slice(alloc, label.as_slice())?;
            Ok(Some(Statement::Jump(op, label)))
        }
        _ => Ok(None),
    }
}

/// An instruction with a reference to a member: its class, its name and its descriptor.
fn on_member_of(
    alloc: Global,
    op: u8,
    kind: MemberKind,
    words: &[Word],
) -> Result<Option<Statement>, OutOfMemory>
    ensures { IfOk result (Finds op (Operands.Member kind) words.now) }
{
    let [
        Word::Plain(class),
        Word::Plain(name),
        Word::Plain(descriptor),
    ] = words
    else {
        return Ok(None);
    };
    let class = List::from_slice(alloc, class.as_slice())?;
    let name = List::from_slice(alloc, name.as_slice())?;
    let descriptor = List::from_slice(alloc, descriptor.as_slice())?;
    Ok(Some(Statement::OnMember(op, kind, class, name, descriptor)))
}

/// An instruction with a class.
fn on_class_of(alloc: Global, op: u8, words: &[Word]) -> Result<Option<Statement>, OutOfMemory>
    ensures { IfOk result (Finds op Operands.ClassName words.now) }
{
    let [Word::Plain(class)] = words else {
        return Ok(None);
    };
    let class = List::from_slice(alloc, class.as_slice())?;
    Ok(Some(Statement::OnClass(op, class)))
}

/// Whether a number is the code of a type of elements.
fn is_kind(kind: u16) -> bool
    ensures { IsTrue result ↔ IsKind kind }
{
    matches!(kind, 4 | 5 | 8..=11)
}

/// The code of the type of an array's elements.
fn kind_of(word: &[u8]) -> Option<u8>
    ensures { MatchOption result ((kind : ℕ) → IsKind kind → word.now ≡ decimal_of (pos kind) → ⊥)
        (λ kind. IsKind kind × (word.now ≡ decimal_of (pos kind))) }
{
    let kind = count_of(word)?;
    if !is_kind(kind) {
        return None;
    }
    Some(kind as u8)
}

/// Whether a number is one of dimensions that are made.
fn is_dimensions(dims: u16) -> bool
    ensures { IsTrue result ↔ (1 ≤ dims) × (dims ≤ 255) }
{
    matches!(dims, 1..=255)
}

/// A number of dimensions.
fn dimensions_of(word: &[u8]) -> Option<u8>
    ensures { MatchOption result ((dims : ℕ) → 1 ≤ dims → dims ≤ 255 → word.now ≡ decimal_of (pos dims) → ⊥)
        (λ dims. (1 ≤ dims) × (dims ≤ 255) × (word.now ≡ decimal_of (pos dims))) }
{
    let dims = count_of(word)?;
    if !is_dimensions(dims) {
        return None;
    }
    Some(dims as u8)
}

/// `newarray`: the code of the type of its elements.
fn new_array_of(words: &[Word]) -> Option<Statement>
    ensures { (op : ℕ) → Finds op Operands.ArrayKind words.now result }
{
    let [Word::Plain(kind)] = words else {
        return None;
    };
    Some(Statement::NewArray(kind_of(kind.as_slice())?))
}

/// `multianewarray`: a class, and how many dimensions are made.
fn new_arrays_of(alloc: Global, words: &[Word]) -> Result<Option<Statement>, OutOfMemory>
    ensures { IfOk result (λ found. (op : ℕ) → Finds op Operands.Dimensions words.now found) }
{
    let [Word::Plain(class), Word::Plain(dims)] = words else {
        return Ok(None);
    };
    let Some(dims) = dimensions_of(dims.as_slice()) else {
        return Ok(None);
    };
    let class = List::from_slice(alloc, class.as_slice())?;
    Ok(Some(Statement::NewArrays(class, dims)))
}

/// Where the first `=` of a word stands.
fn first_equals(word: &[u8]) -> Option<usize>
    ensures { result ≡ position (λ b. b == 61) word.now }
{
    word.iter().position(|byte| *byte == b'=')
}

/// What stands before the first `=` of a word, and what after it.
fn key_and_label(word: &[u8]) -> Option<(&[u8], &[u8])>
    ensures { MatchOption result (IsTrue (list_all (λ b. not (b == 61)) word.now))
        (λ found. IsTrue (list_all (λ b. not (b == 61)) found.0.now) × (word.now ≡ found.0.now ++ 61 ∷ found.1.now)) }
{
    let end = first_equals(word)?;
    Some((&word[..end], &word[end + 1..]))
}

/// A case of a switch.
fn case_of(alloc: Global, word: &Word) -> Result<Option<SwitchLine>, OutOfMemory>
    ensures { IfOk result (FindsCase word.now) }
{
    let Word::Plain(word) = word else {
        return Ok(None);
    };
    let Some((key, label)) = key_and_label(word.as_slice()) else {
        return Ok(None);
    };
    let Some(key) = int_number(key) else {
        return Ok(None);
    };
    if !is_label(label) {
        return Ok(None);
    }
    let label = List::from_slice(alloc, label)?;
    Ok(Some(SwitchLine { key, label }))
}

/// Whether a key is above that of the last case, where there is one.
fn is_above(cases: &[SwitchLine], key: i32) -> bool
    ensures { IsTrue result ↔ IsAbove cases.now key }
{
    match cases {
        [] => true,
        [.., last] => last.key < key,
    }
}

/// Cases of a switch, whose keys rise.
fn cases_of(alloc: Global, words: &[Word]) -> Result<Option<List<SwitchLine>>, OutOfMemory>
    ensures { IfOk result (FindsCases words.now) }
{
    let mut cases = List::new(alloc);
    for word in words {
        let Some(case) = case_of(alloc, word)? else {
            return Ok(None);
        };
        if !is_above(cases.as_slice(), case.key) {
            return Ok(None);
        }
        cases.push(case)?;
    }
    Ok(Some(cases))
}

/// The first word, where it has no quotes, and the words after it.
fn first_plain(words: &[Word]) -> Option<(&[u8], &[Word])>
    ensures { MatchOption result ((first : List ℕ) (rest : List Word) → words.now ≡ Plain first ∷ rest → ⊥)
        (λ found. words.now ≡ Plain found.0.now ∷ found.1.now) }
{
    match words {
        [Word::Plain(first), rest @ ..] => Some((first.as_slice(), rest)),
        _ => None,
    }
}

/// `lookupswitch`: the label of the default, and cases.
fn switch_of(alloc: Global, words: &[Word]) -> Result<Option<Statement>, OutOfMemory>
    ensures { IfOk result (λ found. (op : ℕ) → Finds op Operands.Cases words.now found) }
{
    let Some((default, cases)) = first_plain(words) else {
        return Ok(None);
    };
    if !is_label(default) {
        return Ok(None);
    }
    let Some(cases) = cases_of(alloc, cases)? else {
        return Ok(None);
    };
    let default = List::from_slice(alloc, default)?;
    Ok(Some(Statement::Switch(default, cases)))
}

/// The instruction that a mnemonic and the words after it are.
fn with_operands(
    alloc: Global,
    mnemonic: Mnemonic,
    words: &[Word],
) -> Result<Option<Statement>, OutOfMemory>
    ensures { IfOk result (Finds mnemonic.op mnemonic.operands words.now) }
{
    let op = mnemonic.op;
    match mnemonic.operands {
        Operands::Nothing => Ok(simple_of(op, words)),
        Operands::Number => Ok(push_of(words)),
        Operands::SingleConstant => single_constant_of(alloc, words),
        Operands::WideConstant => Ok(wide_constant_of(words)),
        Operands::Local => Ok(on_local_of(op, words)),
        Operands::LocalAndStep => Ok(increment_of(words)),
        Operands::Label => jump_of(alloc, op, words),
        Operands::Member(kind) => on_member_of(alloc, op, kind, words),
        Operands::ClassName => on_class_of(alloc, op, words),
        Operands::ArrayKind => Ok(new_array_of(words)),
        Operands::Dimensions => new_arrays_of(alloc, words),
        Operands::Cases => switch_of(alloc, words),
    }
}

/// The instruction that words are, or `None` where they are none.
pub(crate) fn statement_of(alloc: Global, words: &[Word]) -> Result<Option<Statement>, OutOfMemory>
    ensures { IfOk result (λ found. MatchOption found ((s : Statement) → IsStatement words.now s → ⊥)
        (λ s. IsStatement words.now s)) }
{
    let Some((name, operands)) = first_plain(words) else {
        return Ok(None);
    };
    let Some(mnemonic) = mnemonic_named(name) else {
        return Ok(None);
    };
    with_operands(alloc, mnemonic, operands)
}
