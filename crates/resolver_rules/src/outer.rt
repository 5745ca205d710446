//! The lines of a folder's `resolver.txt`, and what names mean outside of the folder.

ghost use Rattle.std.specs.Prelude.{◌≡◌, ℕ, List, length, take, IfErr, IfOk, Some};
ghost use Rattle.jk_model.specs.declared.identifiers.ClassId.{ClassId as AClassId};
ghost use Rattle.jk_model.specs.SystemTable.{system_classes};
ghost use Rattle.jk_model_classes.specs.Classes.{HasClass};
ghost use Rattle.jk_model_classes.specs.SystemRecords.{AreSystemRecords};
ghost use Rattle.jk_model_classes.specs.Worlds.{IsWorld, class_named};
ghost use Rattle.jk_model_folders.specs.FolderRules.{AreOuterNames, HasGoodLines};
ghost use Rattle.jk_model_folders.specs.FolderTrees.{AreFiles};
ghost use Rattle.resolver_rules.specs.Faults.{IsResolverFault};

use crate::folder::Folder;
use crate::grammar::good_lines;
use crate::imports::imported_names;
use crate::system_names::give_system_names;
use domain_resolver::{NameTable, World};
use jk_model::{List, OutOfMemory};
use jk_model_classes::ResolverLine;
use jk_model_folders::FolderFiles;
use std::alloc::Global;
use thiserror::Error;

/// What a folder's `resolver.txt` says, and what names mean outside of the folder.
#[derive(Drop)]
pub struct OuterNames {
    /// What the lines say, in their order.
    pub lines: List<ResolverLine>,
    /// The names of the system classes, and those that the lines bring in.
    pub names: NameTable,
}

/// Why a `resolver.txt` is refused.
#[derive(Clone, Copy, Debug, PartialEq, Eq, Error)]
pub enum ResolverFault {
    /// L6: the first line outside the grammar, or that shares a class without a file, counted from 1.
    #[error("line {0} is outside the grammar or shares a class without a file")]
    BadLine(u32),
    /// L7: the first line that brings in what it may not, counted from 1.
    #[error("line {0} imports what is not offered or brings in a name that is taken")]
    NotOffered(u32),
    /// No memory was left. It says nothing of the lines.
    #[error("out of memory")]
    OutOfMemory,
}

impl From<OutOfMemory> for ResolverFault {
    ghost use Rattle.std.specs.Prelude.{◌≡◌};
    ghost use Rattle.resolver_rules.specs.declared.outer.ResolverFault.TheVariants as Fault;

    ghost from_gives = { λ _ e. e ≡ Fault.OutOfMemory };

    fn from(_e: OutOfMemory) -> ResolverFault {
        ResolverFault::OutOfMemory
    }
}

/// The lines of a folder's `resolver.txt` where they keep L6 and L7, for a domain of the name `into`, and what names
/// mean outside of the folder. It takes time in proportion to the bytes of `resolver.txt` and of the paths, and to
/// the references of the classes that the lines bring in, of which each is looked at once, all with a factor log n
/// for n class files, live domains and offers. It takes memory in proportion to the bytes and to those classes.
pub fn outer_names(
    alloc: Global,
    files: &FolderFiles,
    w: &World,
    into: &[u8],
) -> Result<OuterNames, ResolverFault>
    requires files { AreFiles files.now }
    requires world { IsWorld w.now (length w.now.domains) }
    requires system { AreSystemRecords (take (length system_classes) w.now.classes) }
    ensures good { IfOk result (λ o. HasGoodLines files.now w.now into.now o.lines) }
    ensures names { IfOk result (λ o. AreOuterNames w.now into.now o.lines o.names) }
    ensures classes { IfOk result (λ o. (name : List ℕ) (c : AClassId) → class_named o.names name ≡ Some c → HasClass w.now.classes c) }
    ensures fault { IfErr result (IsResolverFault files.now w.now into.now) }
{
    let folder = Folder::of(alloc, files)?;
    let lines = good_lines(alloc, &folder)?;
    let mut names = imported_names(alloc, &folder, w, into, lines.as_slice())?;
    give_system_names(&mut names, w.classes())?;
    names.names_differ();
    Ok(OuterNames { lines, names })
}
