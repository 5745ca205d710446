//! C24: methods whose typing would be too large.

ghost use Rattle.std.specs.Prelude.{◌≡◌, ◌+◌, ◌↔◌, IsTrue, length};
ghost use Rattle.jk_model_typing.specs.Typing.{BreaksC24};
ghost use Rattle.link_rules.specs.FinalMethods.{IsFirstPlace};
ghost use Rattle.placed_rules.specs.Codes.{AreShort, AreShortFrom, AtMember, IsOver, IsShort};
ghost use Rattle.placed_rules.specs.PlacedFaults.{class_at};

use crate::by_file::ClassRule;
use class_table::ClassTable;
use jk_model::ClassId;
use jk_model_classes::{Body, MethodRecord};

/// The most slots of a typing.
const MOST_SLOTS: usize = 4_194_304;

/// C24, over the classes of a folder.
#[derive(Drop)]
pub(crate) struct CodeSizes<'a> {
    pub(crate) t: &'a ClassTable,
    pub(crate) order: &'a [usize],
    pub(crate) first: ClassId,
}

impl ClassRule for CodeSizes<'_> {
    ghost order = { λ s. s.order.now };

    ghost is_ready = { λ s. (length s.t.now ≡ s.first.0 + length s.order.now) × AreShortFrom s.t.now s.first (length s.order.now) };

    ghost breaks = { λ s k. AtMember (BreaksC24 s.t.now (class_at s.first k)) };

    fn least_number(&self, place: usize, _file: usize) -> Option<u32> {
        let _count = self.t.len();
        self.t.ordered();
        let class = self.t.class(ClassId(self.first.0 + place as u32))?;
        let i = first_over(class.methods.as_slice())?;
        Some((class.fields.len() + i + 1) as u32)
    }
}

/// The place of the first of these methods whose typing would be too large.
fn first_over(methods: &[MethodRecord]) -> Option<usize>
    requires { AreShort methods.now }
    ensures { IsFirstPlace IsOver methods.now result }
{
    for i in 0..methods.len() {
        if is_over(&methods[i]) {
            return Some(i);
        }
    }
    None
}

/// Whether a typing of the method's code would have more slots than may be.
fn is_over(method: &MethodRecord) -> bool
    requires { IsShort method.now }
    ensures { IsTrue result ↔ IsOver method.now }
{
    match &method.body {
        Body::Linked(code) => {
            let slots = usize::from(code.max_locals) + usize::from(code.max_stack);
            MOST_SLOTS < code.instrs.len() * slots
        }
        _ => false,
    }
}
