//! Classes put into a world.

ghost use Rattle.std.specs.Prelude.{◌↔◌, IfSome, IsTrue};
ghost use Rattle.std.specs.List.{AllByRecursion};
ghost use Rattle.jk_model_classes.specs.Classes.{HasClass, IsBelow, StandsAbove};

use domain_resolver::World;
use jk_model::ClassId;
use jk_model_classes::ClassRecord;

/// Whether all of some classes are among the first so many.
pub fn are_below(count: usize, classes: &[ClassId]) -> bool
    ensures { IsTrue result ↔ AllByRecursion (IsBelow count) classes.now }
{
    classes.iter().all(|class| (class.0 as usize) < count)
}

/// Whether a class may stand at this place among all classes.
fn stands_above(count: usize, class: &ClassRecord) -> bool
    ensures { IsTrue result → StandsAbove count class.now }
{
    let parent_is_below = match class.parent {
        Some(parent) => (parent.0 as usize) < count,
        None => true,
    };
    parent_is_below && are_below(count, class.interfaces.as_slice())
}

/// Puts a class after all others, where it may stand there.
pub fn put(world: &mut World, class: ClassRecord) -> Option<ClassId>
    ensures { IfSome result (HasClass world.new.classes) }
{
    let count = world.classes().len();
    if count >= u32::MAX as usize || !stands_above(count, &class) {
        return None;
    }
    if class.fields.len() > 65_535 || class.methods.len() > 65_535 {
        return None;
    }
    world.add_class(class).ok()
}

/// The class that stands so many places after another.
pub fn after(first: ClassId, places: u16) -> ClassId {
    ClassId(first.0.saturating_add(u32::from(places)))
}
