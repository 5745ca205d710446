//! What domains share: which classes they offer, what `resolver.txt` says of that, and the stubs of classes
//! whose objects capabilities lead to.

use jk_model::{Bytes, ClassId, List, Rule};

/// A class that a domain offers to another by its name, or to every domain.
#[derive(Drop)]
pub struct Offer {
    pub class: ClassId,
    /// None means every domain.
    pub to: Option<Bytes>,
}

/// A line of `resolver.txt` that says something.
#[derive(Drop)]
pub struct ResolverLine {
    /// The line's number, from 1.
    pub line: u32,
    pub says: ResolverWord,
}

/// What a line of `resolver.txt` says. Names of classes have `/` between the parts.
#[derive(Drop)]
pub enum ResolverWord {
    /// A class of the folder is offered to a domain, or to every domain.
    Share { class: Bytes, to: Option<Bytes> },
    /// A class of another domain is brought in, with all that it refers to.
    Import { from: Bytes, class: Bytes },
}

/// A rule that a class breaks, and where.
#[derive(Clone, Copy, Debug, PartialEq, Eq)]
pub struct ClassFault {
    pub rule: Rule,
    /// A member: 0 is the class itself, fields count from 1, and methods follow on. Where no member breaks the
    /// rule, the index of an entry of the constant pool.
    pub number: u32,
}

/// What a capability shows of its target's class.
#[derive(Drop)]
pub struct Stub {
    /// The class of the target.
    pub class: ClassId,
    /// The interfaces that it implements and that are jk/Remote or below it, each once.
    pub interfaces: List<ClassId>,
}
