//! Walks over the fields, the methods and the pool of a class file, and the number of the least spot that they
//! find. Fields count from 1, methods follow on, and both come before entries of the pool.

ghost use Rattle.std.specs.Prelude.{◌≡◌, ℕ, ◌<◌, ◌^◌, length, slice_get, IfSome};
ghost use Rattle.std.specs.Fn.{TakesAt};
ghost use Rattle.class_rules.specs.Walks.{IsFirstPassed, earlier, least_number};

/// Where a class file breaks a rule first: at the class itself, and at which place of its fields, of its methods and
/// of its pool.
#[derive(Clone, Copy)]
pub(crate) struct FirstPlaces {
    pub class: bool,
    pub field: Option<usize>,
    pub method: Option<usize>,
    pub entry: Option<usize>,
}

impl FirstPlaces {
    /// The number of the least of these spots, in a class file with so many fields.
    pub(crate) fn number(self, fields: usize) -> Option<u32>
        requires fields { fields < 2 ^ 16 }
        requires field { IfSome self.field (λ i. i < 2 ^ 16) }
        requires method { IfSome self.method (λ i. i < 2 ^ 16) }
        requires entry { IfSome self.entry (λ i. i < 2 ^ 16) }
        ensures { result ≡ least_number fields self }
    {
        if self.class {
            return Some(0);
        }
        if let Some(place) = self.field {
            return Some(place as u32 + 1);
        }
        if let Some(place) = self.method {
            return Some((fields + place) as u32 + 1);
        }
        self.entry.map(|place| place as u32)
    }
}

/// The place of the first item of which a test answers yes.
pub(crate) fn first_at<X, F: Fn(&X) -> bool>(items: &[X], test: F) -> Option<usize>
    requires { (i : ℕ) (x : X) → slice_get items.now i ≡ Some x → TakesAt F.Fn test x }
    ensures first { IsFirstPassed F.Fn test items.now result }
    ensures within { IfSome result (λ i. i < length items.now) }
{
    items.iter().position(test)
}

/// The lesser of two places.
pub(crate) fn earlier(a: Option<usize>, b: Option<usize>) -> Option<usize>
    ensures { result ≡ earlier a b }
{
    match a {
        Some(i) => match b {
            Some(j) => { if j < i { Some(j) } else { Some(i) } }
            None => Some(i),
        },
        None => b,
    }
}
