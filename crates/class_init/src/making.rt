//! The parts and the texts with which a domain begins.

ghost use Rattle.std.specs.Prelude.{◌≡◌, ◌≤◌, ◌↔◌, ◌⊎◌, ℕ, Contains, IfOk, List as AList, OnOk, length};
ghost use Rattle.jk_model.specs.declared.identifiers.ClassId.{ClassId as AClassId};
ghost use Rattle.jk_model_classes.specs.Classes.{HasClass};
ghost use Rattle.jk_model_classes.specs.Worlds.{IsNamed};
ghost use Rattle.jk_model_domains.specs.OwnStates.{IsTextOf};
ghost use Rattle.class_init.specs.Beginning.{AddsPart, IsBegun};
ghost use Rattle.class_init.specs.TextsAdded.{AddsTexts, HasConstant, HasText, IsOfSome, LeadsTo};

use crate::class_parts::ClassParts;
use crate::known_texts::KnownTexts;
use class_table::ClassTable;
use domain_resolver::NameTable;
use jk_model::{ClassId, OutOfMemory};
use jk_model_classes::{ClassRecord, FieldRecord, Link};
use jk_model_domains::LiteralImage;
use std::alloc::Global;

/// What a domain knows of its classes as it begins.
#[derive(Drop)]
pub(crate) struct Begun {
    pub(crate) classes: ClassParts,
    pub(crate) texts: KnownTexts,
}

/// The parts of the classes of these names that aren't system classes, as they begin, and the texts to which their pools and
/// the constants of their fields lead.
pub(crate) fn begin(alloc: Global, t: &ClassTable, names: &NameTable) -> Result<Begun, OutOfMemory>
    requires there { (c : AClassId) → IsNamed names.now c → HasClass t.now c }
    ensures { IfOk result (λ b. IsBegun t.now names.now (length names.now) b.classes b.texts) }
{
    let mut begun = Begun {
        classes: ClassParts::new(alloc),
        texts: KnownTexts::new(alloc),
    };
    t.ordered();
    for i in 0..names.len() {
        if let Some(c) = names.class_at(i) {
            if let Some(class) = t.class(c) {
                add_class(&mut begun, c, class)?;
            }
        }
    }
    Ok(begun)
}

/// Adds the part of a class, where it has none yet and is no system class, and its texts.
fn add_class(begun: &mut Begun, c: ClassId, class: &ClassRecord) -> Result<(), OutOfMemory>
    requires { length class.now.fields ≤ 65535 }
    ensures part { OnOk result (AddsPart c class.now begun.old.classes begun.new.classes) }
    ensures texts { OnOk result (AddsTexts (IsTextOf class.now) begun.old.texts begun.new.texts) }
{
    add_part(&mut begun.classes, c, class)?;
    add_texts(&mut begun.texts, class)
}

/// Adds the part of a class, where it has none yet and is no system class.
fn add_part(classes: &mut ClassParts, c: ClassId, class: &ClassRecord) -> Result<(), OutOfMemory>
    requires { length class.now.fields ≤ 65535 }
    ensures { OnOk result (AddsPart c class.now classes.old classes.new) }
{
    if class.home.is_none() || classes.has(c) {
        return Ok(());
    }
    classes.add(c, class)
}

/// Adds the texts of a class: those to which its pool leads, and the constants of its fields.
fn add_texts(texts: &mut KnownTexts, class: &ClassRecord) -> Result<(), OutOfMemory>
    ensures { OnOk result (AddsTexts (IsTextOf class.now) texts.old texts.new) }
{
    add_linked(texts, class.links.as_slice())?;
    add_constants(texts, class.fields.as_slice())
}

/// Adds the texts to which a pool leads.
fn add_linked(texts: &mut KnownTexts, links: &[Link]) -> Result<(), OutOfMemory>
    ensures { OnOk result (AddsTexts (IsOfSome LeadsTo links.now) texts.old texts.new) }
{
    for link in links {
        add_link(texts, link)?;
    }
    Ok(())
}

/// Adds the texts that are constants of these fields.
fn add_constants(texts: &mut KnownTexts, fields: &[FieldRecord]) -> Result<(), OutOfMemory>
    ensures { OnOk result (AddsTexts (IsOfSome HasConstant fields.now) texts.old texts.new) }
{
    for field in fields {
        add_link(texts, &field.constant)?;
    }
    Ok(())
}

/// Adds the text to which a link leads, where it leads to one.
fn add_link(texts: &mut KnownTexts, link: &Link) -> Result<(), OutOfMemory>
    ensures { OnOk result (AddsTexts (LeadsTo link.now) texts.old texts.new) }
{
    match link {
        Link::Text(text) => texts.add(text),
        _ => Ok(()),
    }
}

/// Adds the texts of these images.
pub(crate) fn add_images(texts: &mut KnownTexts, images: &[LiteralImage]) -> Result<(), OutOfMemory>
    ensures { OnOk result (AddsTexts (IsOfSome HasText images.now) texts.old texts.new) }
{
    for image in images {
        texts.add_units(image.text.as_slice())?;
    }
    Ok(())
}
