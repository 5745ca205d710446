//! What an instruction does, in words that code reads.

ghost use Rattle.std.specs.Prelude.{◌≡◌, ◌<◌, Some, length, slice_get};
ghost use Rattle.jk_model_typing.specs.Scopes.{CodeScope};
ghost use Rattle.type_rows.specs.CodeViews.{scope_of};
ghost use Rattle.type_rows.specs.Shapes.{argument_demands, demands_view};

use crate::code_view::CodeView;
use jk_model::{ClassId, MemberId};
use jk_model_classes::{BaseRef, TypeRef};
use jk_model_typing::{Demand, VType};
use type_frames::value_of;

pub(crate) const INT: Demand = Demand::Fitting(VType::Int);

pub(crate) const LONG: Demand = Demand::Fitting(VType::Long);

/// java/lang/String, by its place in the system table.
pub(crate) const STRING: VType = VType::Ref(TypeRef {
    dims: 0,
    base: BaseRef::Class(ClassId(3)),
});

/// java/lang/Throwable, by its place in the system table.
pub(crate) const THROWABLE: VType = VType::Ref(TypeRef {
    dims: 0,
    base: BaseRef::Class(ClassId(9)),
});

/// What the entries are to meet that an instruction takes, the last of them the top one.
#[derive(Clone, Copy)]
pub(crate) enum Demands<'a> {
    Nothing,
    One(Demand),
    Two(Demand, Demand),
    Three(Demand, Demand, Demand),
    /// So many ints.
    Ints(u8),
    /// Arguments of these types.
    Arguments(&'a [TypeRef]),
    /// An entry below such arguments.
    Below(Demand, &'a [TypeRef]),
}

/// What an instruction does to a frame, once its operands are read.
#[derive(Clone, Copy)]
pub(crate) enum Shape<'a> {
    /// Takes entries, and pushes one or none.
    Takes(Demands<'a>, Option<VType>),
    /// Pushes what is in a local, which is to meet a demand.
    Loads(Demand, u32),
    /// Takes an entry that meets a demand, and puts it into a local.
    Stores(Demand, u32),
    /// Asks that a local is an int.
    Increments(u32),
    /// Takes so many slots.
    Drops(usize),
    /// Puts a copy of the topmost slots, as many as the second number says, below those before them, as many as the
    /// first says.
    Copies(usize, usize),
    /// Exchanges two entries of one slot each.
    Swaps,
    /// Takes an array of references and an index, and pushes its element.
    LoadsElement,
    /// Pushes a fresh object.
    Makes,
    /// Calls a constructor of a class, the one found, with arguments of these types.
    Constructs(ClassId, MemberId, &'a [TypeRef]),
    /// Ends the method without a result.
    Leaves,
}

impl Demands<'_> {
    /// How many there are.
    pub(crate) fn len(&self) -> usize
        ensures { (s : CodeScope) → result ≡ length (demands_view s self.now) }
    {
        match self {
            Demands::Nothing => 0,
            Demands::One(_) => 1,
            Demands::Two(_, _) => 2,
            Demands::Three(_, _, _) => 3,
            Demands::Ints(n) => usize::from(*n),
            Demands::Arguments(params) => params.len(),
            Demands::Below(_, params) => params.len() + 1,
        }
    }

    /// The one at a place.
    pub(crate) fn at(&self, view: &CodeView<'_>, k: usize) -> Demand
        requires { k < length (demands_view (scope_of view.now) self.now) }
        ensures { slice_get (demands_view (scope_of view.now) self.now) k ≡ Some result }
    {
        match self {
            Demands::Nothing => unreachable!(),
            Demands::One(d) => *d,
            Demands::Two(a, b) => [*a, *b][k],
            Demands::Three(a, b, c) => [*a, *b, *c][k],
            Demands::Ints(_) => INT,
            Demands::Arguments(params) => argument(view, params, k),
            Demands::Below(d, params) => {
                if k == 0 {
                    *d
                } else {
                    argument(view, params, k - 1)
                }
            }
        }
    }
}

/// What the argument for a parameter is to meet.
fn argument(view: &CodeView<'_>, params: &[TypeRef], k: usize) -> Demand
    requires { k < length params.now }
    ensures { slice_get (argument_demands (scope_of view.now) params.now) k ≡ Some result }
{
    Demand::Fitting(value_of(view.table, &params[k]))
}
