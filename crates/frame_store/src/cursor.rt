//! Where a store was last at work.

use number_table::Place;

/// Where the top frame of the segment that a store last touched is, so that a run of calls on one segment looks it up once:
/// the segment's number and where it stands, the place of its domain in the map, the frame's number in the domain, the
/// places where the frame's values and the entries of its operand stack begin, and how many entries its lowest block has room for.
/// What it says of the segment holds while the segment is in the table, and what it says of the frame while there is one. So a
/// cursor at a segment that isn't in the table says nothing.
#[derive(Clone, Copy)]
pub(crate) struct Cursor {
    pub(crate) segment: u64,
    pub(crate) place: Place,
    pub(crate) domain: usize,
    pub(crate) frame: usize,
    pub(crate) start: usize,
    pub(crate) base: usize,
    pub(crate) room: u16,
}

/// The cursor of a store without segments.
pub(crate) const NOWHERE: Cursor = Cursor {
    segment: 0,
    place: Place { domain: 0, slot: 0 },
    domain: 0,
    frame: 0,
    start: 0,
    base: 0,
    room: 0,
};
