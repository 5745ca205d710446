//! The classes that are linked so far.

use crate::links::links;
use crate::records::{add, class_record};
use crate::scope::{Scope, class_name_at};
use class_table::ClassTable;
use domain_resolver::NameTable;
use jk_model::{ClassFile, ClassId, OutOfMemory};
use std::alloc::Global;

/// Why a class isn't linked.
#[derive(Clone, Copy, Debug)]
pub(crate) enum LinkError {
    /// This entry of its pool leads to nothing that is known; 0 where no entry is at fault.
    Unlinked(u16),
    OutOfMemory,
}

impl From<OutOfMemory> for LinkError {
    fn from(_e: OutOfMemory) -> LinkError {
        LinkError::OutOfMemory
    }
}

/// The system classes and those that were linked, and what their names mean.
#[derive(Drop)]
pub(crate) struct Classes {
    alloc: Global,
    table: ClassTable,
    names: NameTable,
}

/// The names of the classes of a table.
fn names_of(alloc: Global, table: &ClassTable) -> Result<NameTable, OutOfMemory> {
    let mut names = NameTable::new(alloc);
    for number in 0..table.len() {
        let class = ClassId(number as u32);
        if let Some(record) = table.class(class) {
            names.give(&record.name, class)?;
        }
    }
    Ok(names)
}

impl Classes {
    /// The system classes alone.
    pub(crate) fn new(alloc: Global) -> Result<Classes, OutOfMemory> {
        let table = ClassTable::new(alloc)?;
        let names = names_of(alloc, &table)?;
        Ok(Classes {
            alloc,
            table,
            names,
        })
    }

    /// All classes.
    pub(crate) fn table(&self) -> &ClassTable {
        &self.table
    }

    /// Puts the class of a file after all others, and answers its number. After an error no class finds it by its name.
    pub(crate) fn link(&mut self, file: &ClassFile) -> Result<ClassId, LinkError> {
        let pool = file.pool.as_slice();
        let own_name = class_name_at(self.alloc, pool, file.this_class)?;
        let scope = Scope {
            alloc: self.alloc,
            pool,
            names: &self.names,
            own_name: own_name.as_slice(),
            own: ClassId(self.table.len() as u32),
        };
        let record = class_record(&scope, file)?;
        let name = record.name.share()?;
        let class = add(&mut self.table, record)?;
        let links = links(&scope, &self.table)?;
        self.table.set_links(class, links);
        self.names.give(&name, class)?;
        Ok(class)
    }
}
