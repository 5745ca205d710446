//! Which item the words of a line are.

ghost use Rattle.std.specs.Prelude.{◌≡◌, ◌≢◌, ℕ, ◌↔◌, ◌≤◌, ◌∷◌, ◌++◌, [], List, Option, pos, map, codes, IfOk, MatchOption, IsTrue};
ghost use Rattle.asm_reader.specs.declared.items.ClassLine.{ClassLine};
ghost use Rattle.asm_reader.specs.declared.items.FieldLine.{FieldLine};
ghost use Rattle.asm_reader.specs.declared.items.MethodLine.{MethodLine};
ghost use Rattle.asm_reader.specs.declared.items.CodeLine.{CodeLine};
ghost use Rattle.asm_reader.specs.declared.items.CatchLine.{CatchLine};
ghost use Rattle.asm_reader.specs.declared.items.Constant.{Constant};
ghost use Rattle.asm_reader.specs.declared.items.Item.{Item};
ghost use Rattle.asm_reader.specs.declared.items.Statement.{Statement};
ghost use Rattle.asm_reader.specs.declared.words.Word.{Word};
ghost use Rattle.asm_reader.specs.declared.words.Word.TheVariants.{Plain, Quoted};
ghost use Rattle.asm_reader.specs.Items.{keyword_of, HasConstant, IsAfterLabel, IsCatchLine, IsCaught, IsClassLine, IsCodeLine, IsFieldLine, IsItem, IsItemOf, IsMethodLine};
ghost use Rattle.asm_reader.specs.ItemParts.{keyword_seen, IsHead, IsSize, AreSizes, IsLabelWord, AreLabels, IsMarked};
ghost use Rattle.asm_reader.specs.Statements.{IsLabel};

use crate::items::{
    CatchLine, ClassLine, CodeLine, Constant, FieldLine, Item, MethodLine, Statement,
};
use crate::numbers::{count_of, decimal, hexadecimal, int_number};
use crate::statements::{is_label, statement_of};
use crate::words::Word;
use jk_model::{Bytes, List, OutOfMemory};
use std::alloc::Global;

/// What a line begins with.
#[derive(Clone, Copy)]
enum Keyword {
    Class,
    Field,
    Method,
    Catch,
    End,
    /// A label, or the name of an instruction.
    Code,
}

/// The keyword that a word is.
fn keyword_named(word: &[u8]) -> Keyword
    ensures { keyword_seen result ≡ keyword_of word.now }
{
    match word {
        b"class" => Keyword::Class,
        b"field" => Keyword::Field,
        b"method" => Keyword::Method,
        b"catch" => Keyword::Catch,
        b"end" => Keyword::End,
        _ => Keyword::Code,
    }
}

// ---- Words one by one.

/// The first word, if it is plain, and the words after it.
fn next_plain(words: &[Word]) -> Option<(&[u8], &[Word])>
    ensures { MatchOption result ((bytes : List ℕ) (rest : List Word) → words.now ≡ Plain bytes ∷ rest → ⊥)
        (λ found. words.now ≡ Plain found.0.now ∷ found.1.now) }
{
    match words {
        [Word::Plain(bytes), rest @ ..] => Some((bytes.as_slice(), rest)),
        _ => None,
    }
}

/// The words without quotes that all words are, or `None` where one is a quoted text.
fn plain_words(alloc: Global, words: &[Word]) -> Result<Option<List<Bytes>>, OutOfMemory>
    ensures { IfOk result (λ found. MatchOption found ((plain : List (List ℕ)) → words.now ≡ map Plain plain → ⊥)
        (λ plain. words.now ≡ map Plain plain)) }
{
    let mut plain = List::new(alloc);
    for word in words {
        let Word::Plain(bytes) = word else {
            return Ok(None);
        };
        plain.push(bytes.copied()?)?;
    }
    Ok(Some(plain))
}

/// The first words of a class, a field or a method: flags, a name, and a parent or a descriptor.
#[derive(Clone, Copy)]
struct Head<'a> {
    flags: u16,
    name: &'a [u8],
    third: &'a [u8],
    rest: &'a [Word],
}

/// The first words of a class, a field or a method.
fn head_of(words: &[Word]) -> Option<Head<'_>>
    ensures { MatchOption result
        ((flags : ℕ) (name : List ℕ) (third : List ℕ) (rest : List Word) → IsHead words.now flags name third rest → ⊥)
        (λ head. IsHead words.now head.flags head.name.now head.third.now head.rest.now) }
{
    let (flags, rest) = next_plain(words)?;
    let (name, rest) = next_plain(rest)?;
    let (third, rest) = next_plain(rest)?;
    let flags = hexadecimal(flags)?;
    Some(Head {
        flags,
        name,
        third,
        rest,
    })
}

/// A number of slots, and the words after it.
fn next_count(words: &[Word]) -> Option<(u16, &[Word])>
    ensures { MatchOption result ((n : ℕ) (rest : List Word) → IsSize words.now n rest → ⊥)
        (λ found. IsSize words.now found.0 found.1.now) }
{
    let (word, rest) = next_plain(words)?;
    Some((count_of(word)?, rest))
}

/// A label, and the words after it.
fn next_label(words: &[Word]) -> Option<(&[u8], &[Word])>
    ensures { MatchOption result ((label : List ℕ) (rest : List Word) → IsLabelWord words.now label rest → ⊥)
        (λ found. IsLabelWord words.now found.0.now found.1.now) }
{
    let (label, rest) = next_plain(words)?;
    if !is_label(label) {
        return None;
    }
    Some((label, rest))
}

/// A label with a `:` after it, and the words after that.
fn next_mark(words: &[Word]) -> Option<(&[u8], &[Word])>
    ensures { MatchOption result ((label : List ℕ) (rest : List Word) → IsMarked words.now label rest → ⊥)
        (λ found. IsMarked words.now found.0.now found.1.now) }
{
    let (word, rest) = next_plain(words)?;
    let [label @ .., b':'] = word else {
        return None;
    };
    if !is_label(label) {
        return None;
    }
    Some((label, rest))
}

// ---- A function for each sort of line.

/// The class that the words after `class` are.
fn class_line(alloc: Global, words: &[Word]) -> Result<Option<ClassLine>, OutOfMemory>
    ensures { IfOk result (λ found. MatchOption found ((line : ClassLine) → IsClassLine words.now line → ⊥)
        (λ line. IsClassLine words.now line)) }
{
    let Some(head) = head_of(words) else {
        return Ok(None);
    };
    let Some(interfaces) = plain_words(alloc, head.rest)? else {
        return Ok(None);
    };
    Ok(Some(ClassLine {
        flags: head.flags,
        name: List::from_slice(alloc, head.name)?,
        parent: List::from_slice(alloc, head.third)?,
        interfaces,
    }))
}

/// The constant that a number is, for a field of this descriptor.
fn number_constant(descriptor: &[u8], number: &[u8]) -> Option<Constant>
    ensures { MatchOption result
        ((constant : Constant) → HasConstant descriptor.now (Plain number.now ∷ []) (Option.Some constant) → ⊥)
        (λ constant. HasConstant descriptor.now (Plain number.now ∷ []) (Option.Some constant)) }
{
    match descriptor {
        b"J" => Some(Constant::Long(decimal(number)?)),
        _ => Some(Constant::Int(int_number(number)?)),
    }
}

/// The constant of a field of this descriptor, or none, that the last words of its line are.
fn constant_of(
    alloc: Global,
    descriptor: &[u8],
    words: &[Word],
) -> Result<Option<Option<Constant>>, OutOfMemory>
    ensures { IfOk result (λ found. MatchOption found
        ((constant : Option Constant) → HasConstant descriptor.now words.now constant → ⊥)
        (λ constant. HasConstant descriptor.now words.now constant)) }
{
    match words {
        [] => Ok(Some(None)),
        [Word::Quoted(text)] => Ok(Some(Some(Constant::Text(text.copied()?)))),
        [Word::Plain(number)] => Ok(number_constant(descriptor, number.as_slice()).map(Some)),
        _ => Ok(None),
    }
}

/// The field that the words after `field` are.
fn field_line(alloc: Global, words: &[Word]) -> Result<Option<FieldLine>, OutOfMemory>
    ensures { IfOk result (λ found. MatchOption found ((line : FieldLine) → IsFieldLine words.now line → ⊥)
        (λ line. IsFieldLine words.now line)) }
{
    let Some(head) = head_of(words) else {
        return Ok(None);
    };
    let Some(constant) = constant_of(alloc, head.third, head.rest)? else {
        return Ok(None);
    };
    Ok(Some(FieldLine {
        flags: head.flags,
        name: List::from_slice(alloc, head.name)?,
        descriptor: List::from_slice(alloc, head.third)?,
        constant,
    }))
}

/// The two sizes of a method, and the words after them.
fn sizes_of(words: &[Word]) -> Option<(u16, u16, &[Word])>
    ensures { MatchOption result ((stack : ℕ) (locals : ℕ) (rest : List Word) → AreSizes words.now stack locals rest → ⊥)
        (λ found. AreSizes words.now found.0 found.1 found.2.now) }
{
    let (stack, rest) = next_count(words)?;
    let (locals, rest) = next_count(rest)?;
    Some((stack, locals, rest))
}

/// The method that the words after `method` are.
fn method_line(alloc: Global, words: &[Word]) -> Result<Option<MethodLine>, OutOfMemory>
    ensures { IfOk result (λ found. MatchOption found ((line : MethodLine) → IsMethodLine words.now line → ⊥)
        (λ line. IsMethodLine words.now line)) }
{
    let Some(head) = head_of(words) else {
        return Ok(None);
    };
    let Some((stack, locals, rest)) = sizes_of(head.rest) else {
        return Ok(None);
    };
    let Some(throws) = plain_words(alloc, rest)? else {
        return Ok(None);
    };
    Ok(Some(MethodLine {
        flags: head.flags,
        name: List::from_slice(alloc, head.name)?,
        descriptor: List::from_slice(alloc, head.third)?,
        stack,
        locals,
        throws,
    }))
}

/// What a catch catches.
fn caught_of(alloc: Global, words: &[Word]) -> Result<Option<Option<Bytes>>, OutOfMemory>
    ensures { IfOk result (λ found. MatchOption found
        ((word : Word) (class : Option (List ℕ)) → IsCaught word class → words.now ≡ word ∷ [] → ⊥)
        (λ class. (word : Word) × IsCaught word class × (words.now ≡ word ∷ []))) }
{
    match words {
        [Word::Plain(class)] => match class.as_slice() {
            b"any" => Ok(Some(None)),
            _ => Ok(Some(Some(class.copied()?))),
        },
        _ => Ok(None),
    }
}

/// Three labels, and the words after them.
fn labels_of(words: &[Word]) -> Option<(&[u8], &[u8], &[u8], &[Word])>
    ensures { MatchOption result
        ((from : List ℕ) (to : List ℕ) (handler : List ℕ) (rest : List Word) → AreLabels words.now from to handler rest → ⊥)
        (λ found. AreLabels words.now found.0.now found.1.now found.2.now found.3.now) }
{
    let (from, rest) = next_label(words)?;
    let (to, rest) = next_label(rest)?;
    let (handler, rest) = next_label(rest)?;
    Some((from, to, handler, rest))
}

/// The handler that the words after `catch` are.
fn catch_line(alloc: Global, words: &[Word]) -> Result<Option<CatchLine>, OutOfMemory>
    ensures { IfOk result (λ found. MatchOption found ((line : CatchLine) → IsCatchLine words.now line → ⊥)
        (λ line. IsCatchLine words.now line)) }
{
    let Some((from, to, handler, rest)) = labels_of(words) else {
        return Ok(None);
    };
    let Some(class) = caught_of(alloc, rest)? else {
        return Ok(None);
    };
    Ok(Some(CatchLine {
        from: List::from_slice(alloc, from)?,
        to: List::from_slice(alloc, to)?,
        handler: List::from_slice(alloc, handler)?,
        class,
    }))
}

/// The instruction, or none, that the words after a label are.
fn after_label(alloc: Global, words: &[Word]) -> Result<Option<Option<Statement>>, OutOfMemory>
    ensures { IfOk result (λ found. MatchOption found
        ((statement : Option Statement) → IsAfterLabel words.now statement → ⊥)
        (λ statement. IsAfterLabel words.now statement)) }
{
    if words.is_empty() {
        return Ok(Some(None));
    }
    match statement_of(alloc, words)? {
        Some(statement) => Ok(Some(Some(statement))),
        None => Ok(None),
    }
}

/// The label, the instruction, or both, that words are.
fn code_line(alloc: Global, words: &[Word]) -> Result<Option<CodeLine>, OutOfMemory>
    ensures { IfOk result (λ found. MatchOption found ((line : CodeLine) → IsCodeLine words.now line → ⊥)
        (λ line. IsCodeLine words.now line)) }
{
    let Some((label, rest)) = next_mark(words) else {
        return match statement_of(alloc, words)? {
            Some(statement) => Ok(Some(CodeLine {
                label: None,
                statement: Some(statement),
            })),
            None => Ok(None),
        };
    };
    let Some(statement) = after_label(alloc, rest)? else {
        return Ok(None);
    };
    Ok(Some(CodeLine {
        label: Some(List::from_slice(alloc, label)?),
        statement,
    }))
}

/// The item that the words are, or `None` where they are none.
pub(crate) fn item_of(alloc: Global, words: &[Word]) -> Result<Option<Item>, OutOfMemory>
    ensures { IfOk result (λ found. MatchOption found ((i : Item) → IsItem words.now i → ⊥)
        (λ i. IsItem words.now i)) }
{
    let Some((word, rest)) = next_plain(words) else {
        return Ok(None);
    };
    match keyword_named(word) {
        Keyword::Class => Ok(class_line(alloc, rest)?.map(Item::Class)),
        Keyword::Field => Ok(field_line(alloc, rest)?.map(Item::Field)),
        Keyword::Method => Ok(method_line(alloc, rest)?.map(Item::Method)),
        Keyword::Catch => Ok(catch_line(alloc, rest)?.map(Item::Catch)),
        Keyword::End if rest.is_empty() => Ok(Some(Item::End)),
        Keyword::End => Ok(None),
        Keyword::Code => Ok(code_line(alloc, words)?.map(Item::Code)),
    }
}
