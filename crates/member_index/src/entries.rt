//! Members of any kind in the order of their marks, and the search among them.

ghost use Rattle.std.specs.Prelude.{◌≡◌, ◌≤◌, ◌↔◌, length, map, IfOk, IsTrue};
ghost use Rattle.std.specs.Ordering.{is_lt};
ghost use Rattle.member_index.specs.Finding.{FindsAt};
ghost use Rattle.member_index.specs.Index.{AreInOrder, IsIndexOf, IsRunOf, entry_cmp, has_marks};

use crate::marks::{Marked, Marks};
use jk_model::OutOfMemory;
use std::alloc::Global;

/// A member of a class: its marks, and its place in the class file.
#[derive(Clone, Copy, Debug, PartialEq, Eq, PartialOrd, Ord)]
pub(crate) struct Entry {
    pub(crate) marks: Marks,
    pub(crate) place: u16,
}

/// What a member is looked for by.
pub(crate) trait Sought<M: Marked> {
    ghost use Rattle.std.specs.Prelude.{◌≡◌, ◌↔◌, IsTrue};
    ghost use Rattle.member_index.specs.declared.marks.Marks.{Marks};

    ghost sought_marks: { Self → Marks };

    ghost Suits: { Self → M → Type 0 };

    /// The marks of each member that suits.
    fn marks(&self) -> Marks
        ensures { result ≡ sought_marks self.now };

    /// Whether a member suits.
    fn is(&self, member: &M) -> bool
        ensures { IsTrue result ↔ Suits self.now member.now };

    ghost marks_agree: { (key : Self) (member : M) → Suits key member → M.marks_of member ≡ sought_marks key };
}

/// The entries of members in their order. It takes time in proportion to n log n for n members.
pub(crate) fn sorted_entries<M: Marked>(
    alloc: Global,
    members: &[M],
) -> Result<Vec<Entry>, OutOfMemory>
    requires { length members.now ≤ 65535 }
    ensures { IfOk result (λ entries. IsIndexOf (map M.marks_of members.now) entries.items) }
{
    let mut entries = Vec::with_capacity(alloc, members.len())?;
    for (place, member) in members.iter().enumerate() {
        let marks = member.marks();
        let place = place as u16;
        entries.push(Entry { marks, place })?;
    }
    entries.as_mut_slice().sort_unstable();
    Ok(entries)
}

/// The place of the first member at `from` or after it that suits. No member is looked at but those with the
/// marks that are sought.
pub(crate) fn first_from<M: Marked, K: Sought<M>>(
    entries: &[Entry],
    members: &[M],
    key: &K,
    from: u16,
) -> Option<u16>
    requires { IsIndexOf (map M.marks_of members.now) entries.now }
    ensures { FindsAt (K.Suits key.now) members.now from result }
{
    for entry in run(entries, key.marks(), from) {
        if key.is(&members[usize::from(entry.place)]) {
            return Some(entry.place);
        }
    }
    None
}

/// The entries with these marks at `from` or after it. They stand together, in the order of their places.
fn run(entries: &[Entry], marks: Marks, from: u16) -> &[Entry]
    requires { AreInOrder entries.now }
    ensures { IsRunOf entries.now marks from result.now }
{
    let first = Entry { marks, place: from };
    let start = entries.partition_point(
        |entry: &Entry| -> bool
            ensures { result ≡ is_lt (entry_cmp entry.now first) }
        { *entry < first },
    );
    let rest = &entries[start..];
    let end = rest.partition_point(
        |entry: &Entry| -> bool
            ensures { result ≡ has_marks marks entry.now }
        { entry.marks == marks },
    );
    &rest[..end]
}
