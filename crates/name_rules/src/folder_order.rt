//! The order of a folder's classes.

ghost use Rattle.std.specs.Prelude.{◌≡◌, ℕ, IfOk, List};
ghost use Rattle.jk_model_classes.specs.References.{StandsOver};
ghost use Rattle.jk_model_folders.specs.ClassOrder.{IsClassOrder};
ghost use Rattle.class_files.specs.FolderClasses.{AreReadClasses, files_of};
ghost use Rattle.name_rules.specs.FolderNames.{AreOwnNames};

use crate::edges::edges;
use crate::heights::{by_height, heights};
use class_files::FolderClass;
use domain_resolver::NameTable;
use jk_model::OutOfMemory;
use std::alloc::Global;

/// The places of the class files in the order in which their classes are put behind those that are loaded: each after its
/// parent and its interfaces, those with fewer classes of the folder in a row above them first, and those with equally many
/// in the order of the files. It takes time in proportion to the files, and to the square of their number for each class that
/// stands above another in the longest row; there are few files.
pub fn class_order(
    alloc: Global,
    folder: &[FolderClass],
    own: &NameTable,
) -> Result<Vec<usize>, OutOfMemory>
    requires read { AreReadClasses folder.now }
    requires own { AreOwnNames (files_of folder.now) own.now }
    requires no_ring { (name : List ℕ) → StandsOver (files_of folder.now) name name → ⊥ }
    ensures { IfOk result (λ order. IsClassOrder (files_of folder.now) order.items) }
{
    let rows = edges(alloc, folder, own)?;
    let heights = heights(alloc, &rows)?;
    by_height(alloc, &heights)
}
