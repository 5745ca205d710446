//! What the methods of the system mean, by their classes and their places there: the code's own table.

ghost use Rattle.std.specs.Prelude.{◌≡◌, ◌≢◌, [], Some, None};
ghost use Rattle.jk_model_system_rows.specs.Meanings.{meaning_of, of_all_throwables, of_buffer, of_capability, of_domain, of_object, of_print_stream, of_repository, of_string, of_task, of_throwable};
ghost use Rattle.system_calls.specs.MeaningsByPlace.{meaning_in};

use jk_model::MemberId;
use jk_model_heaps::system_classes as system;
use jk_model_system_rows::{Shown, SystemMeaning};

// The classes that have methods, by their numbers.
const OBJECT: u32 = system::OBJECT.0;

const STRING: u32 = system::STRING.0;

const STRING_BUFFER: u32 = system::STRING_BUFFER.0;

const STRING_BUILDER: u32 = system::STRING_BUILDER.0;

const PRINT_STREAM: u32 = system::PRINT_STREAM.0;

const SYSTEM: u32 = system::SYSTEM.0;

const INTEGER: u32 = system::INTEGER.0;

const THROWABLE: u32 = system::THROWABLE.0;

const CAPABILITY: u32 = system::CAPABILITY.0;

const REPOSITORY: u32 = system::REPOSITORY.0;

const DOMAIN: u32 = system::DOMAIN.0;

const TASK: u32 = system::TASK.0;

const THREAD_DEATH: u32 = system::THREAD_DEATH.0;

/// java/lang/Exception, the first of the classes below java/lang/Throwable, and the last of them.
const EXCEPTION: u32 = 15;

const LAST_EXCEPTION: u32 = system::NOT_COPIABLE_EXCEPTION.0;

/// What a method of a system class means. None of any other method.
pub(crate) fn meaning(m: MemberId) -> Option<SystemMeaning>
    ensures { result ≡ meaning_of m }
{
    let index = m.index;
    match m.class.0 {
        OBJECT => object_meaning(index),
        STRING => string_meaning(index),
        STRING_BUFFER => buffer_meaning(index),
        STRING_BUILDER => buffer_meaning(index),
        PRINT_STREAM => stream_meaning(index),
        SYSTEM => first_meaning(index, SystemMeaning::CopiesArray),
        INTEGER => first_meaning(index, SystemMeaning::ParsesInt),
        THROWABLE => throwable_meaning(index),
        CAPABILITY => capability_meaning(index),
        REPOSITORY => repository_meaning(index),
        DOMAIN => domain_meaning(index),
        TASK => task_meaning(index),
        THREAD_DEATH => first_meaning(index, SystemMeaning::Initialises),
        EXCEPTION..=LAST_EXCEPTION => exception_meaning(index),
        _ => None,
    }
}

/// The meaning of the only method of a class.
fn first_meaning(index: u16, meaning: SystemMeaning) -> Option<SystemMeaning>
    ensures first { index ≡ 0 → result ≡ Some meaning }
    ensures others { index ≢ 0 → result ≡ None }
{
    if index == 0 { Some(meaning) } else { None }
}

fn object_meaning(index: u16) -> Option<SystemMeaning>
    ensures { result ≡ meaning_in of_object index }
{
    match index {
        0 => Some(SystemMeaning::Initialises),
        1 => Some(SystemMeaning::IsSame),
        _ => None,
    }
}

fn string_meaning(index: u16) -> Option<SystemMeaning>
    ensures { result ≡ meaning_in of_string index }
{
    match index {
        0 => Some(SystemMeaning::TextLength),
        1 => Some(SystemMeaning::CharAt),
        2 => Some(SystemMeaning::IsSameText),
        3 => Some(SystemMeaning::Concat),
        4 => Some(SystemMeaning::Substring),
        5 => Some(SystemMeaning::TextOf(Shown::Int)),
        6 => Some(SystemMeaning::TextOf(Shown::Long)),
        7 => Some(SystemMeaning::TextOf(Shown::Char)),
        8 => Some(SystemMeaning::TextOf(Shown::Truth)),
        _ => None,
    }
}

/// Of java/lang/StringBuffer and of java/lang/StringBuilder.
fn buffer_meaning(index: u16) -> Option<SystemMeaning>
    ensures { result ≡ meaning_in (of_buffer []) index }
{
    match index {
        0 => Some(SystemMeaning::BufferInitialises),
        1 => Some(SystemMeaning::BufferInitialisesWith),
        2 => Some(SystemMeaning::BufferLength),
        3 => Some(SystemMeaning::BufferText),
        4 => Some(SystemMeaning::Appends(Shown::Text)),
        5 => Some(SystemMeaning::Appends(Shown::Int)),
        6 => Some(SystemMeaning::Appends(Shown::Long)),
        7 => Some(SystemMeaning::Appends(Shown::Char)),
        8 => Some(SystemMeaning::Appends(Shown::Truth)),
        _ => None,
    }
}

fn stream_meaning(index: u16) -> Option<SystemMeaning>
    ensures { result ≡ meaning_in of_print_stream index }
{
    match index {
        0 => Some(SystemMeaning::PrintsEmptyLine),
        1 => Some(SystemMeaning::Prints(Shown::Text)),
        2 => Some(SystemMeaning::Prints(Shown::Int)),
        3 => Some(SystemMeaning::Prints(Shown::Long)),
        4 => Some(SystemMeaning::Prints(Shown::Char)),
        5 => Some(SystemMeaning::Prints(Shown::Truth)),
        _ => None,
    }
}

/// Of java/lang/Throwable itself.
fn throwable_meaning(index: u16) -> Option<SystemMeaning>
    ensures { result ≡ meaning_in of_all_throwables index }
{
    match index {
        0 => Some(SystemMeaning::Initialises),
        1 => Some(SystemMeaning::SetsMessage),
        2 => Some(SystemMeaning::GetsMessage),
        _ => None,
    }
}

/// Of the classes below java/lang/Throwable, but for java/lang/ThreadDeath.
fn exception_meaning(index: u16) -> Option<SystemMeaning>
    ensures { result ≡ meaning_in of_throwable index }
{
    match index {
        0 => Some(SystemMeaning::Initialises),
        1 => Some(SystemMeaning::SetsMessage),
        _ => None,
    }
}

fn capability_meaning(index: u16) -> Option<SystemMeaning>
    ensures { result ≡ meaning_in of_capability index }
{
    match index {
        0 => Some(SystemMeaning::CreatesCapability),
        1 => Some(SystemMeaning::RevokesCapability),
        _ => None,
    }
}

fn repository_meaning(index: u16) -> Option<SystemMeaning>
    ensures { result ≡ meaning_in of_repository index }
{
    match index {
        0 => Some(SystemMeaning::BindsName),
        1 => Some(SystemMeaning::LooksUpName),
        2 => Some(SystemMeaning::UnbindsName),
        _ => None,
    }
}

fn domain_meaning(index: u16) -> Option<SystemMeaning>
    ensures { result ≡ meaning_in of_domain index }
{
    match index {
        0 => Some(SystemMeaning::NamesDomain),
        1 => Some(SystemMeaning::CountsFreeWords),
        2 => Some(SystemMeaning::TerminatesDomain),
        _ => None,
    }
}

fn task_meaning(index: u16) -> Option<SystemMeaning>
    ensures { result ≡ meaning_in of_task index }
{
    match index {
        0 => Some(SystemMeaning::GetsTask),
        1 => Some(SystemMeaning::SuspendsTask),
        2 => Some(SystemMeaning::ResumesTask),
        3 => Some(SystemMeaning::StopsTask),
        _ => None,
    }
}
