//! A method's code, and what it is judged in.

use class_table::ClassTable;
use jk_model::{ClassId, List, MemberId};
use jk_model_classes::{Body, Link, LinkedCode, MethodRecord};

/// A method's code, and what it is judged in: all classes, its own class, what the entries of that class's pool lead
/// to, and the method.
#[derive(Clone, Copy)]
pub struct CodeView<'a> {
    pub table: &'a ClassTable,
    pub class: ClassId,
    pub links: &'a List<Link>,
    pub method: &'a MethodRecord,
    pub code: &'a LinkedCode,
}

impl<'a> CodeView<'a> {
    ghost use Rattle.std.specs.Prelude.{IfNone, IfSome, ◌≡◌};
    ghost use Rattle.jk_model_typing.specs.Scopes.{CodeScope, IsScopeOf};
    ghost use Rattle.type_rows.specs.CodeViews.{scope_of};

    /// That of a method; none where there is no such method, or it has no code.
    pub fn of(t: &'a ClassTable, m: MemberId) -> Option<CodeView<'a>>
        ensures none { IfNone result ((s : CodeScope) → IsScopeOf t.now m s → ⊥) }
        ensures some { IfSome result (λ v. IsScopeOf t.now m (scope_of v)) }
    {
        let class = t.class(m.class)?;
        let method = class.methods.get(usize::from(m.index))?;
        match &method.body {
            Body::Linked(code) => Some(CodeView {
                table: t,
                class: m.class,
                links: &class.links,
                method,
                code,
            }),
            _ => None,
        }
    }
}
