//! What is said of a system class.

/// A field of a system class.
#[derive(Clone, Copy, Debug)]
pub struct SystemField {
    /// Its name. One that begins with `.` is hidden: no class file can name it.
    pub name: &'static str,
    /// What is written of its type (the Java Virtual Machine Specification, 4.3.2).
    pub descriptor: &'static str,
    /// 0001 for public, with 0008 for static and 0010 for final.
    pub flags: u16,
}

/// A method of a system class.
#[derive(Clone, Copy, Debug)]
pub struct SystemMethod {
    /// Its name, `<init>` for a constructor.
    pub name: &'static str,
    /// What is written of its type (the Java Virtual Machine Specification, 4.3.3).
    pub descriptor: &'static str,
    /// 0001 for public, with 0008 for static and 0010 for final.
    pub flags: u16,
    /// Its place among all methods of all system classes in order, from 0.
    pub number: u16,
}

/// A system class.
#[derive(Clone, Copy, Debug)]
pub struct SystemClass {
    /// Its name, with `/` between its parts.
    pub name: &'static str,
    /// The number of its parent. Only `java/lang/Object` has none.
    pub parent: Option<u16>,
    /// 0001 for public, with 0200 for an interface and 0400 for abstract.
    pub flags: u16,
    /// The numbers of the interfaces that it lists.
    pub interfaces: &'static [u16],
    /// It isn't extended, and `new` makes it only by the constructors among its methods.
    pub closed: bool,
    /// Its objects are copied when a call enters another domain.
    pub copiable: bool,
    /// Its own fields, without those of its parents.
    pub fields: &'static [SystemField],
    /// Its own methods, without those of its parents.
    pub methods: &'static [SystemMethod],
}
