//! The system classes of which C27 speaks.

ghost use Rattle.std.specs.Prelude.{◌≡◌, ◌↔◌, IsTrue};
ghost use Rattle.jk_model_classes.specs.Items.{HasItem};
ghost use Rattle.jk_model_classes.specs.SharedRules.{AnnouncesRemote};
ghost use Rattle.jk_model_classes.specs.Stubs.{ImplementsRemote};
ghost use Rattle.shared_interfaces.specs.SystemNames.{AreRemoteNumbers, IsNumberOf};

use class_table::ClassTable;
use jk_model::ClassId;
use system_table::class_named;

/// The system classes of which C27 speaks: jk/Remote, and the throwables that announce those of a remote call.
#[derive(Clone, Copy)]
pub(crate) struct RemoteNumbers {
    pub(crate) remote: Option<ClassId>,
    pub(crate) remote_exception: Option<ClassId>,
    pub(crate) exception: Option<ClassId>,
    pub(crate) throwable: Option<ClassId>,
}

/// Looks the numbers up.
pub(crate) fn remote_numbers() -> RemoteNumbers
    ensures { AreRemoteNumbers result }
{
    RemoteNumbers {
        remote: class_called(&units(b"jk/Remote")),
        remote_exception: class_called(&units(b"jk/RemoteException")),
        exception: class_called(&units(b"java/lang/Exception")),
        throwable: class_called(&units(b"java/lang/Throwable")),
    }
}

/// The system class of a name.
fn class_called(name: &[u16]) -> Option<ClassId>
    ensures { IsNumberOf name.now result }
{
    let number = class_named(name)?;
    Some(ClassId(u32::from(number)))
}

/// The units of a text of ASCII characters.
fn units<const N: usize>(text: &[u8; N]) -> [u16; N]
    ensures { result ≡ text.now }
{
    let mut units = [0; N];
    for i in 0..N {
        units[i] = u16::from(text[i]);
    }
    units
}

/// Whether a class implements jk/Remote.
pub(crate) fn is_remote(numbers: &RemoteNumbers, classes: &ClassTable, c: ClassId) -> bool
    requires { AreRemoteNumbers numbers.now }
    ensures { IsTrue result ↔ ImplementsRemote classes.now c }
{
    match numbers.remote {
        Some(remote) => classes.implements(c, remote),
        None => false,
    }
}

/// Whether a throwable announces those of a remote call.
fn announces(numbers: &RemoteNumbers, c: ClassId) -> bool
    requires { AreRemoteNumbers numbers.now }
    ensures { IsTrue result ↔ AnnouncesRemote c }
{
    is_number(numbers.remote_exception, c)
        || is_number(numbers.exception, c)
        || is_number(numbers.throwable, c)
}

/// Whether a class was found, and is this one.
fn is_number(found: Option<ClassId>, c: ClassId) -> bool
    ensures { IsTrue result ↔ (found ≡ Some c) }
{
    found == Some(c)
}

/// Whether one of the throwables announces those of a remote call.
pub(crate) fn some_announces(numbers: &RemoteNumbers, thrown: &[ClassId]) -> bool
    requires { AreRemoteNumbers numbers.now }
    ensures { IsTrue result ↔ HasItem AnnouncesRemote thrown.now }
{
    for c in thrown {
        if announces(numbers, *c) {
            return true;
        }
    }
    false
}
