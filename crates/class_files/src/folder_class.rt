//! A class file of a folder.

use class_texts::ClassTexts;
use jk_model::ClassFile;

/// A class file of a folder, with the texts of its pool.
#[derive(Drop)]
pub struct FolderClass {
    pub file: ClassFile,
    pub texts: ClassTexts,
}
