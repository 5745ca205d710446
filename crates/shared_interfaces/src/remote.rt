//! C27.

ghost use Rattle.std.specs.Prelude.{◌≡◌, ◌+◌, ◌≤◌, ◌↔◌, IsTrue, IfNone, IfSome, length};
ghost use Rattle.jk_model_classes.specs.Items.{HasItem};
ghost use Rattle.jk_model_classes.specs.SharedRules.{BreaksC27, IsRemoteFault, NoneBreaks, folder_methods};
ghost use Rattle.jk_model_classes.specs.Stubs.{ImplementsRemote};
ghost use Rattle.shared_interfaces.specs.Earliest.{IsLeast};
ghost use Rattle.shared_interfaces.specs.Shapes.{IsSilent, IsSilentAt};
ghost use Rattle.shared_interfaces.specs.SystemNames.{AreRemoteNumbers};

use crate::class_rule::{ClassRule, first_to_break};
use crate::remote_numbers::{RemoteNumbers, is_remote, remote_numbers, some_announces};
use class_table::ClassTable;
use domain_resolver::World;
use jk_model::{AccessFlags, ClassId, List, Rule, has};
use jk_model_classes::{ClassFault, ClassRecord, MethodRecord};

/// `<clinit>`.
const CLINIT: [u16; 8] = [0x3c, 0x63, 0x6c, 0x69, 0x6e, 0x69, 0x74, 0x3e];

/// The first class of a folder that breaks C27, with the least number where it does; none where none does. The classes from
/// `first` on are those of the folder. `declared` has, for each method of the folder's classes in the order of classes and
/// members, the classes that it says it throws. It takes no memory, and time in proportion to the classes, to their methods and
/// to what these declare, and to the interfaces that stand above each interface of the folder and above those that it lists.
pub fn remote_fault(
    w: &World,
    first: ClassId,
    declared: &[List<ClassId>],
) -> Option<(ClassId, ClassFault)>
    requires { length declared.now ≡ folder_methods w.now.classes first }
    ensures fault { IfSome result (λ f. IsRemoteFault w.now.classes first declared.now f.0 f.1) }
    ensures no_fault { IfNone result (NoneBreaks (BreaksC27 w.now.classes first declared.now)) }
{
    let classes = w.classes();
    let rule = RemoteShape {
        classes,
        first,
        declared,
        numbers: remote_numbers(),
    };
    let (c, number) = first_to_break(&rule, classes, first)?;
    Some((
        c,
        ClassFault {
            rule: Rule::C27,
            number,
        },
    ))
}

/// C27: what an interface below jk/Remote lists is below it too, and its methods announce the throwables of a remote call.
#[derive(Drop)]
struct RemoteShape<'w> {
    classes: &'w ClassTable,
    first: ClassId,
    declared: &'w [List<ClassId>],
    numbers: RemoteNumbers,
}

impl ClassRule for RemoteShape<'_> {
    ghost classes = { λ s. s.classes.now };

    ghost first = { λ s. s.first };

    ghost is_ready = { λ s. (length s.declared.now ≡ folder_methods s.classes.now s.first) × AreRemoteNumbers s.numbers };

    ghost breaks = { λ s. BreaksC27 s.classes.now s.first s.declared.now };

    fn least_number(&self, c: ClassId, class: &ClassRecord, passed: usize) -> Option<u32> {
        self.classes.ordered();
        if !has(class.flags, AccessFlags::INTERFACE) || !is_remote(&self.numbers, self.classes, c) {
            return None;
        }
        if lists_other(&self.numbers, self.classes, class.interfaces.as_slice()) {
            return Some(0);
        }
        let i = first_silent(
            &self.numbers,
            class.methods.as_slice(),
            self.declared,
            passed,
        )?;
        Some((class.fields.len() + i + 1) as u32)
    }
}

/// Whether one of the interfaces is neither jk/Remote nor below it.
fn lists_other(numbers: &RemoteNumbers, classes: &ClassTable, interfaces: &[ClassId]) -> bool
    requires { AreRemoteNumbers numbers.now }
    ensures { IsTrue result ↔ HasItem (λ i. ImplementsRemote classes.now i → ⊥) interfaces.now }
{
    for i in interfaces {
        if !is_remote(numbers, classes, *i) {
            return true;
        }
    }
    false
}

/// The place of the first method other than `<clinit>` that doesn't announce the throwables of a remote call, where those
/// that the methods declare stand after the first `passed` lists.
fn first_silent(
    numbers: &RemoteNumbers,
    methods: &[MethodRecord],
    declared: &[List<ClassId>],
    passed: usize,
) -> Option<usize>
    requires numbers { AreRemoteNumbers numbers.now }
    requires declared { passed + length methods.now ≤ length declared.now }
    ensures { IsLeast (IsSilentAt methods.now declared.now passed) result }
{
    for (i, method) in methods.iter().enumerate() {
        if is_silent(numbers, method, declared[passed + i].as_slice()) {
            return Some(i);
        }
    }
    None
}

/// Whether a method that declares these throwables is another than `<clinit>` and announces none of a remote call.
fn is_silent(numbers: &RemoteNumbers, method: &MethodRecord, thrown: &[ClassId]) -> bool
    requires { AreRemoteNumbers numbers.now }
    ensures { IsTrue result ↔ IsSilent method.now thrown.now }
{
    !method.name.is(&CLINIT) && !some_announces(numbers, thrown)
}
