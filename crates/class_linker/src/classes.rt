//! The classes that the texts of a pool name. Each text is looked up once, so that it does not count how many entries name it.

ghost use Rattle.std.specs.Prelude.{IfOk};
ghost use Rattle.class_texts.specs.PoolTexts.{AreTextsOf};
ghost use Rattle.class_linker.specs.LinkedFiles.{IsLinkable};
ghost use Rattle.class_linker.specs.TextsSaid.{Answers, SaysClass};
ghost use Rattle.class_linker.specs.Scopes.{AreNamed};

use class_texts::ClassTexts;
use domain_resolver::NameTable;
use jk_model::{ClassFile, ClassId, List, OutOfMemory};
use std::alloc::Global;

/// The class that the text at an index names; nothing where it names none, or none stands there.
fn class_at(c: &ClassFile, texts: &ClassTexts, names: &NameTable, i: u16) -> Option<ClassId>
    requires { AreTextsOf c.now.pool texts.now }
    ensures { Answers (SaysClass names.now c.now.pool i) result }
{
    let _pool = &c.pool;
    match texts.text(i) {
        Some(name) => names.resolve_text(name),
        None => None,
    }
}

/// The class that each text of a pool names, in time and memory in proportion to the pool.
pub(crate) fn classes_in(
    alloc: Global,
    c: &ClassFile,
    texts: &ClassTexts,
    names: &NameTable,
) -> Result<List<Option<ClassId>>, OutOfMemory>
    requires linkable { IsLinkable c.now names.now }
    requires texts { AreTextsOf c.now.pool texts.now }
    ensures { IfOk result (λ classes. AreNamed names.now c.now.pool classes) }
{
    let mut classes = List::new(alloc);
    let end = c.pool.len() as u16;
    for i in 0..end {
        classes.push(class_at(c, texts, names, i))?;
    }
    Ok(classes)
}
