//! Numbers for the classes of a folder: those below a class follow on the class itself.

use class_table::ClassTable;
use jk_model::{ClassId, OutOfMemory};
use std::alloc::Global;

/// The number of a class, and the first one after those of the classes below it.
#[derive(Clone, Copy, Debug)]
pub(crate) struct Span {
    pub(crate) from: u32,
    pub(crate) until: u32,
}

/// The spans of the classes from `first` on. It takes the same time and memory for each.
pub(crate) fn spans_from(
    alloc: Global,
    t: &ClassTable,
    first: ClassId,
) -> Result<Vec<Span>, OutOfMemory> {
    let sizes = sizes_from(alloc, t, first)?;
    let mut free = Vec::new(alloc);
    free.push(0)?;
    let mut spans = Vec::new(alloc);
    let mut class = first;
    for size in sizes.iter() {
        let from = take_numbers(&mut free, row_above(t, first, class), *size);
        let until = from.saturating_add(*size);
        free.push(from.saturating_add(1))?;
        spans.push(Span { from, until })?;
        class = next(class);
    }
    Ok(spans)
}

/// The classes from `first` on in the order of their numbers.
pub(crate) fn downwards(
    alloc: Global,
    first: ClassId,
    spans: &[Span],
) -> Result<Vec<ClassId>, OutOfMemory> {
    let mut order = vec![in alloc; first; spans.len()]?;
    let mut class = first;
    for span in spans {
        let place = span.from as usize;
        if place < order.len() {
            order[place] = class;
        }
        class = next(class);
    }
    Ok(order)
}

/// How many classes there are below each class from `first` on, with the class itself.
fn sizes_from(alloc: Global, t: &ClassTable, first: ClassId) -> Result<Vec<u32>, OutOfMemory> {
    let count = t.len().saturating_sub(first.0 as usize);
    let mut sizes = vec![in alloc; 1u32; count]?;
    let mut class = ClassId(t.len() as u32);
    for i in 0..count {
        class = ClassId(class.0.saturating_sub(1));
        add_size(&mut sizes, count - 1 - i, row_above(t, first, class));
    }
    Ok(sizes)
}

/// Adds the size at a place to that in the row above, where 0 is for no class.
fn add_size(sizes: &mut Vec<u32>, place: usize, above: usize) {
    if above == 0 || above > sizes.len() || place >= sizes.len() {
        return;
    }
    let size = sizes[place];
    sizes[above - 1] = sizes[above - 1].saturating_add(size);
}

/// The first free number in a row; as many as asked for aren't free from now on.
fn take_numbers(free: &mut Vec<u32>, row: usize, count: u32) -> u32 {
    if row >= free.len() {
        return 0;
    }
    let from = free[row];
    free[row] = from.saturating_add(count);
    from
}

/// The row of a class's parent: its place among the classes from `first` on, counted from 1, or 0 where it stands before them.
fn row_above(t: &ClassTable, first: ClassId, class: ClassId) -> usize {
    match place_above(t, first, class) {
        Some(place) => place.saturating_add(1) as usize,
        None => 0,
    }
}

/// The place of a class's parent among the classes from `first` on.
fn place_above(t: &ClassTable, first: ClassId, class: ClassId) -> Option<u32> {
    let parent = t.class(class)?.parent?;
    parent.0.checked_sub(first.0)
}

fn next(class: ClassId) -> ClassId {
    ClassId(class.0.saturating_add(1))
}
