//! Laws of what the kernel's calls promise. The functions have no bodies: each stands for its clause.

ghost use Rattle.kernel_events.specs.FreedPages.{KillsFreePages};
ghost use Rattle.kernel_events.specs.RisingNumbers.{NumbersRiseInEvents};

/// A kill makes just the pages of the domain free.
pub fn kills_free_pages()
    ensures { KillsFreePages }
{}

/// A step draws at most one number of a segment, so many steps at most so many, and a kill none.
pub fn numbers_rise()
    ensures { NumbersRiseInEvents }
{}
