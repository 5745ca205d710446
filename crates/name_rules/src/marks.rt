//! Marks at places.

ghost use Rattle.std.specs.Prelude.{◌≡◌, ◌↔◌, ℕ, IsTrue};
ghost use Rattle.name_rules.specs.Marks.{IsMarked, Marks};

/// Whether there is a mark at a place.
pub(crate) fn is_marked(marks: &[bool], i: usize) -> bool
    ensures { IsTrue result ↔ IsMarked marks.now i }
{
    i < marks.len() && marks[i]
}

/// Marks a place, if there is room for its mark.
pub(crate) fn set_mark(marks: &mut [bool], i: usize)
    ensures { Marks (λ j. j ≡ i) marks.old marks.new }
{
    if i < marks.len() {
        marks[i] = true;
    }
}
