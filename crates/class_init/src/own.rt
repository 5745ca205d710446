//! A domain's own state.

ghost use Rattle.std.specs.Prelude.{◌≡◌, ℕ, ◌≢◌, ◌<◌, ◌++◌, ◌∷◌, [], List as AList, length, Contains, IfOk, OnErr, OnOk, None, slice_get, slice_set, Some};
ghost use Rattle.jk_model.specs.declared.identifiers.ClassId.{ClassId as AClassId};
ghost use Rattle.jk_model_classes.specs.declared.records.FieldRecord.{FieldRecord as AField};
ghost use Rattle.jk_model_classes.specs.Classes.{HasClass};
ghost use Rattle.jk_model_classes.specs.Worlds.{IsNamed};
ghost use Rattle.jk_model_domains.specs.OwnStates.{OwnState as AState, ClassPart as APart, Literal as ALiteral, ArePartsOf, HasState, HasStatic, IsFirstState, IsLiteralOf, IsOwnState, literal_named, standing_place, state_of, static_of, with_state, with_static};
ghost use Rattle.jk_model_domains.specs.declared.states.LiteralImage.{LiteralImage as AnImage};
ghost use Rattle.class_init.specs.Beginning.{new_kept};
ghost use Rattle.class_init.specs.InOrder.{AreByName, AreByText};
ghost use Rattle.class_init.specs.KeptStates.{HasFirstRooms, HasRooms};
ghost use Rattle.class_init.specs.MissingTexts.{HasTextConstant, IsCostOfMissing};

use crate::class_parts::ClassParts;
use crate::in_order::{classes_in_order, literals_in_order};
use crate::literals::Literals;
use crate::making::{Begun, add_images, begin};
use class_table::ClassTable;
use domain_resolver::NameTable;
use jk_model::{ClassId, MemberId, OutOfMemory, Standing, Value};
use jk_model_classes::FieldRecord;
use jk_model_domains::{ClassState, LiteralImage, OwnParts};
use shared_values::Text;
use std::alloc::Global;
use std::marker::Model;

/// What a domain has for itself beside its heap. Only `make`, `parts` and `from_parts` take memory.
#[derive(Drop)]
pub struct Own {
    alloc: Global,
    classes: ClassParts,
    literals: Literals,
    /// The name of the PrintStream.
    out: u32,
    /// The names of the standing throwables, in the order of `Standing`.
    standing: [u32; 8],
}

impl Model for Own {
    ghost use Rattle.class_init.specs.KeptStates.{KeptState};

    ghost Value = { KeptState };

    ghost view = { λ own. record {
      state = record {
        classes = own.classes;
        literals = own.literals.literals;
        out = own.out;
        standing = own.standing;
      };
      rooms = own.literals.texts;
    } };

    ghost use Rattle.std.specs.Prelude.{◌≡◌, length};

    ghost invariant = { λ own. length own.standing ≡ 8 };
}

impl Own {
    /// The state with which a domain begins whose names have these meanings: no class is touched, and each static field has
    /// its whole-number constant, or else 0 or null. It reserves room for one object of each literal. The names of the
    /// PrintStream and of the standing throwables are 0 until they are set.
    pub fn make(alloc: Global, t: &ClassTable, names: &NameTable) -> Result<Own, OutOfMemory>
        requires there { (c : AClassId) → IsNamed names.now c → HasClass t.now c }
        ensures state { IfOk result (λ own. IsFirstState t.now names.now own.state) }
        ensures rooms { IfOk result (λ own. HasFirstRooms t.now names.now own) }
    {
        let begun = begin(alloc, t, names)?;
        let own = Own::of(alloc, begun)?;
        own.holds();
        Ok(own)
    }

    /// As `make`, but the texts of these images are known too.
    fn knowing(
        alloc: Global,
        t: &ClassTable,
        names: &NameTable,
        images: &[LiteralImage],
    ) -> Result<Own, OutOfMemory>
        requires there { (c : AClassId) → IsNamed names.now c → HasClass t.now c }
        ensures state { IfOk result (λ own. IsOwnState t.now names.now own.state) }
        ensures rooms { IfOk result (λ own. HasRooms t.now names.now own) }
        ensures none { IfOk result (λ own. own.state.literals ≡ []) }
        ensures known { IfOk result (λ own. (l : AnImage) → Contains images.now l → Contains own.rooms l.text) }
    {
        let mut begun = begin(alloc, t, names)?;
        add_images(&mut begun.texts, images)?;
        let own = Own::of(alloc, begun)?;
        own.holds();
        Ok(own)
    }

    /// A state with these parts and texts, of which none has an object yet, with room for one object of each.
    fn of(alloc: Global, begun: Begun) -> Result<Own, OutOfMemory>
        ensures { IfOk result (λ own. own ≡ new_kept begun.classes begun.texts) }
    {
        let literals = Literals::of(alloc, begun.texts)?;
        Ok(Own {
            alloc,
            classes: begun.classes,
            literals,
            out: 0,
            standing: [0; 8],
        })
    }

    /// How far a class is initialised. A class without a part here is a system class, or of no name of the domain.
    pub(crate) fn state(&self, c: ClassId) -> ClassState
        ensures { result ≡ state_of self.now.state c }
    {
        match self.classes.state(c) {
            Some(s) => s,
            None => ClassState::Done,
        }
    }

    /// Sets how far a class is initialised.
    pub fn set_state(&mut self, c: ClassId, s: ClassState)
        requires { HasState self.old.state c }
        ensures { self.new ≡ record self.old { state = with_state self.old.state c s } }
    {
        self.classes.set_state(c, s);
    }

    /// The value of a static field.
    pub fn static_value(&self, m: MemberId) -> Value
        requires { HasStatic self.now.state m }
        ensures { static_of self.now.state m ≡ Some result }
    {
        match self.classes.value(m) {
            Some(v) => v,
            None => unreachable!(),
        }
    }

    /// Sets the value of a static field.
    pub fn set_static(&mut self, m: MemberId, v: Value)
        requires { HasStatic self.old.state m }
        ensures { self.new ≡ record self.old { state = with_static self.old.state m v } }
    {
        self.classes.set_value(m, v);
    }

    /// The name of the text object of a literal; none exactly where it has no object yet.
    pub fn literal(&self, text: &Text) -> Option<u32>
        ensures { result ≡ literal_named self.now.state text.now }
    {
        self.literals.named(text.as_slice(), text.fingerprint())
    }

    /// Gives a literal its object. It takes no memory.
    pub fn set_literal(&mut self, text: &Text, a: u32)
        requires known { Contains self.old.rooms text.now }
        requires new { literal_named self.old.state text.now ≡ None }
        ensures { self.new ≡ record self.old {
          state = record self.old.state { literals = self.old.state.literals ++ record { text = text.now; name = a } ∷ [] };
        } }
    {
        self.literals.set(text.as_slice(), text.fingerprint(), a);
    }

    /// How many words the objects take together of the texts that are constants of static fields among these and have no object
    /// yet, equal ones once. It takes no memory, and time in proportion to n log m for n fields and m texts that have rooms.
    pub fn missing_words(&mut self, fields: &[FieldRecord]) -> u64
        requires { (f : AField) (text : AList ℕ) → Contains fields.now f → HasTextConstant f text → Contains self.old.rooms text }
        ensures words { IsCostOfMissing self.old.state fields.now result }
        ensures same { self.new ≡ self.old }
    {
        self.literals.missing_words(fields)
    }

    /// The name of a standing throwable.
    pub fn standing(&self, s: Standing) -> u32
        ensures { slice_get self.now.state.standing (standing_place s) ≡ Some result }
    {
        self.standing[place_of_standing(s)]
    }

    /// Sets the name of a standing throwable.
    pub fn set_standing(&mut self, s: Standing, a: u32)
        ensures { self.new ≡ record self.old { state = record self.old.state { standing = slice_set self.old.state.standing (standing_place s) a } } }
    {
        self.standing[place_of_standing(s)] = a;
    }

    /// The name of the PrintStream.
    pub fn out(&self) -> u32
        ensures { result ≡ self.now.state.out }
    {
        self.out
    }

    /// Sets the name of the PrintStream.
    pub fn set_out(&mut self, a: u32)
        ensures { self.new ≡ record self.old { state = record self.old.state { out = a } } }
    {
        self.out = a;
    }

    /// The same as plain lists: classes in the order of the units of their names, literals in the order of their units. A class
    /// that isn't in the table counts as one without a name.
    pub fn parts(&self, t: &ClassTable) -> Result<OwnParts, OutOfMemory>
        ensures parts { IfOk result (λ parts. ArePartsOf self.now.state parts) }
        ensures by_name { IfOk result (λ parts. AreByName t.now parts.classes) }
        ensures by_text { IfOk result (λ parts. AreByText parts.literals) }
    {
        let images = self.literals.images(self.alloc)?;
        Ok(OwnParts {
            classes: classes_in_order(self.alloc, t, self.classes.as_slice())?,
            literals: literals_in_order(self.alloc, images)?,
            out: self.out,
            standing: self.standing,
        })
    }

    /// The state that these parts say, for a domain whose names have these meanings. It reserves room for one object of each
    /// text of the domain's classes and of the parts' literals.
    pub fn from_parts(
        alloc: Global,
        t: &ClassTable,
        names: &NameTable,
        parts: OwnParts,
    ) -> Result<Own, OutOfMemory>
        requires there { (c : AClassId) → IsNamed names.now c → HasClass t.now c }
        requires state { (own : AState) × IsOwnState t.now names.now own × ArePartsOf own parts }
        ensures state { IfOk result (λ own. IsOwnState t.now names.now own.state) }
        ensures rooms { IfOk result (λ own. HasRooms t.now names.now own) }
        ensures parts { IfOk result (λ own. ArePartsOf own.state parts) }
    {
        let mut own = Own::knowing(alloc, t, names, parts.literals.as_slice())?;
        own.classes.restore_all(parts.classes.as_slice());
        own.literals.restore_all(parts.literals.as_slice());
        own.out = parts.out;
        own.standing = parts.standing;
        Ok(own)
    }

    /// What holds of each state: it has eight standing throwables, no class, room or literal is there twice, and the text of each
    /// literal has a room. It does nothing.
    pub fn holds(&self)
        ensures standing { length self.now.state.standing ≡ 8 }
        ensures classes { (i j : ℕ) (a b : APart) → slice_get self.now.state.classes i ≡ Some a → slice_get self.now.state.classes j ≡ Some b
            → a.class ≡ b.class → i ≡ j }
        ensures rooms { (i j : ℕ) (text : AList ℕ) → slice_get self.now.rooms i ≡ Some text → slice_get self.now.rooms j ≡ Some text → i ≡ j }
        ensures literals { (l : ALiteral) → Contains self.now.state.literals l → Contains self.now.rooms l.text }
        ensures literals_differ { (i j : ℕ) (a b : ALiteral) → slice_get self.now.state.literals i ≡ Some a
            → slice_get self.now.state.literals j ≡ Some b → a.text ≡ b.text → i ≡ j }
    {
        self.classes.differ();
        self.literals.differ();
    }
}

/// The place of a standing throwable.
fn place_of_standing(s: Standing) -> usize
    ensures place { result ≡ standing_place s }
    ensures few { result < 8 }
{
    match s {
        Standing::OutOfMemoryError => 0,
        Standing::StackOverflowError => 1,
        Standing::Revoked => 2,
        Standing::Quota => 3,
        Standing::NotCopiable => 4,
        Standing::Remote => 5,
        Standing::ThreadDeath => 6,
        Standing::Security => 7,
    }
}
