//! What loading a folder answers.

use domain_resolver::{NameTable, Offers};
use jk_model::{ClassId, List, OutOfMemory, Place, Rule};
use jk_model_classes::Stub;
use thiserror::Error;

/// What a folder brings whose classes are loaded.
#[derive(Drop)]
pub struct Loaded {
    /// The number of the first of its classes. The others follow on, and none follows those.
    pub first: ClassId,
    /// What names mean in the domain: those of the system, of what is imported, and of the folder's own classes.
    pub table: NameTable,
    /// What the domain offers to others.
    pub offers: Offers,
    /// The stubs of the folder's classes, in rising number.
    pub stubs: List<Stub>,
}

/// Why a folder isn't loaded.
#[derive(Debug, Drop, Error)]
pub enum LoadAnswer {
    /// The first rule that it breaks, and where.
    #[error("the folder breaks a rule")]
    Refused(Rule, Place),
    /// A fault of the files, which was counted.
    #[error("cannot read")]
    ReadFault,
    #[error("out of memory")]
    OutOfMemory,
}

impl From<OutOfMemory> for LoadAnswer {
    ghost use Rattle.std.specs.Prelude.{◌≡◌};
    ghost use Rattle.folder_loader.specs.declared.answers.LoadAnswer.TheVariants.{OutOfMemory as Lacks};

    ghost from_gives = { λ _ e. e ≡ Lacks };

    fn from(_e: OutOfMemory) -> LoadAnswer {
        LoadAnswer::OutOfMemory
    }
}
