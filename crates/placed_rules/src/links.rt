//! C20, C21 and C22: what the references of the folder's classes find.

ghost use Rattle.std.specs.Prelude.{◌≡◌, IfNone, IfSome};
ghost use Rattle.jk_model_classes.specs.Worlds.{WorldRecord};
ghost use Rattle.jk_model_folders.specs.ClassOrder.{IsClassOrder};
ghost use Rattle.jk_model_folders.specs.FolderRules.{BreaksPlaced, IsFirstBroken, NoneBroken, PlacedFolder, placed_rules};
ghost use Rattle.class_files.specs.FolderClasses.{AreReadClasses, files_of};
ghost use Rattle.placed_rules.specs.FirstFiles.{BreaksInFile};
ghost use Rattle.placed_rules.specs.PlacedFaults.{AreLinkedIn, HasLinkFault, IsUnlinkedAs, class_at, link_rules, scope_at};
ghost use Rattle.placed_rules.specs.declared.links.LinkRule.TheVariants as Kind;

use crate::by_file::{ClassRule, first_broken};
use class_files::{FileFault, FolderClass};
use class_table::ClassTable;
use domain_resolver::NameTable;
use jk_model::{ClassId, List, Rule};
use jk_model_classes::Link;
use link_rules::{FolderFinals, access_fault, member_fault};
use std::alloc::Global;

/// One of C20, C21 and C22.
#[derive(Clone, Copy)]
enum LinkRule {
    Members,
    Access,
    Finals,
}

/// One of these rules, over the classes of a folder.
#[derive(Drop)]
struct LinkedClasses<'a> {
    rule: LinkRule,
    t: &'a ClassTable,
    classes: &'a [FolderClass],
    order: &'a [usize],
    first: ClassId,
    names: &'a NameTable,
    links: &'a [List<Link>],
    finals: &'a FolderFinals<'a>,
}

impl ClassRule for LinkedClasses<'_> {
    ghost order = { λ s. s.order.now };

    ghost is_ready = { λ s. AreReadClasses s.classes.now × IsClassOrder (files_of s.classes.now) s.order.now
        × AreLinkedIn s.t.now s.names.now s.first s.order.now (files_of s.classes.now) s.links.now × (s.finals.now ≡ s.t.now) };

    ghost breaks = { λ s. BreaksInFile s.order.now (files_of s.classes.now)
        (λ k c spot. HasLinkFault s.rule (scope_at s.t.now s.names.now (class_at s.first k)) c spot) };

    fn least_number(&self, place: usize, file: usize) -> Option<u32> {
        let _count = self.t.len();
        let class = ClassId(self.first.0 + place as u32);
        let f = &self.classes[file];
        let links = &self.links[place];
        match self.rule {
            LinkRule::Members => {
                member_fault(self.t, class, &f.file, &f.texts, self.names, links)
            }
            LinkRule::Access => access_fault(self.t, class, &f.file, &f.texts, self.names, links),
            LinkRule::Finals => self.finals.fault(class),
        }
    }
}

/// The first of C20, C21 and C22 that a class of the folder breaks: of the files that break it the first, and in it the least
/// number; none where they break none of them. The classes of the folder stand from `first` on in the table, in the order that
/// `order` gives of the places of their files, and have no links there; `links` has those of each, in the same order.
///
/// It takes the time of `FolderFinals::new`, and of each rule's own call for each class. Memory is taken for C22 alone, which is
/// judged where there is none too.
pub fn link_fault(
    alloc: Global,
    t: &ClassTable,
    classes: &[FolderClass],
    order: &[usize],
    first: ClassId,
    names: &NameTable,
    links: &[List<Link>],
) -> Option<FileFault>
    requires read { AreReadClasses classes.now }
    requires order { IsClassOrder (files_of classes.now) order.now }
    requires linked { AreLinkedIn t.now names.now first order.now (files_of classes.now) links.now }
    ensures fault { IfSome result (λ f. (w : WorldRecord) (p : PlacedFolder) → IsUnlinkedAs w p t.now names.now order.now first
        → IsFirstBroken placed_rules (BreaksPlaced w (files_of classes.now) p) f.rule f.file f.number) }
    ensures none { IfNone result ((w : WorldRecord) (p : PlacedFolder) → IsUnlinkedAs w p t.now names.now order.now first
        → NoneBroken link_rules (BreaksPlaced w (files_of classes.now) p)) }
{
    let finals = FolderFinals::new(alloc, t, first);
    let mut judged = LinkedClasses {
        rule: LinkRule::Members,
        t,
        classes,
        order,
        first,
        names,
        links,
        finals: &finals,
    };
    if let Some(fault) = first_broken(Rule::C20, &judged, order) {
        return Some(fault);
    }
    judged.rule = LinkRule::Access;
    if let Some(fault) = first_broken(Rule::C21, &judged, order) {
        return Some(fault);
    }
    judged.rule = LinkRule::Finals;
    first_broken(Rule::C22, &judged, order)
}
