// What a formed card keeps beside its flash. The tables are of fixed sizes, since the firmware allocates nothing.
ghost use Rattle.std.specs.Prelude.{◌≡◌, ◌+◌, ◌<◌};
ghost use Rattle.flatcard.specs.Card.{start, zones};
ghost use Rattle.zones.specs.Geometries.{geometry_of};
ghost use Rattle.zones.specs.Phases.{phase_state};

use crate::geometry::Geometry;
use crate::report::ZoneReport;
use crate::state::State;
use crate::zone::{Slot, Zone};
use std::array;

// The free block groups of a chip group, first in first out: where the front stands in the chip group's stretch of
// the table of groups, and how many there are from there on, going round at the stretch's end. A front and a count,
// since one table of 64 serves all chip groups, where a ring for each would need sixteen of that size.
#[derive(Clone, Copy)]
pub struct Row {
    pub front: usize,
    pub count: usize,
}

#[derive(Drop)]
pub struct Book {
    pub geometry: Geometry,
    pub zones: [Zone; 64],
    // by chip group
    pub rows: [Row; 16],
    // the stretches of the rows, one after another, each as long as a bank has blocks
    pub groups: [usize; 64],
    pub slots: [Slot; 4],
}

impl Book {
    ghost use Rattle.zones.specs.Books.{zone_at};
    ghost use Rattle.zones.specs.Formed.{Begun};

    // The book of a card just formed: every zone empty, every block group free.
    pub(crate) fn new(geometry: Geometry) -> Self
        ensures { Begun result geometry }
    {
        let groups = array::from_fn(|i| i % geometry.blocks);
        Book {
            geometry,
            zones: [Zone::EMPTY; 64],
            rows: [Row {
                front: 0,
                count: geometry.blocks,
            }; 16],
            groups,
            slots: [Slot::BLANK; 4],
        }
    }

    // A zone as a report shows it.
    pub(crate) fn line(&self, zone: usize) -> ZoneReport
        requires { zone < zones (geometry_of self.now.geometry) }
        ensures state { result.state ≡ phase_state (zone_at self.now zone).phase }
        ensures start { result.start ≡ start (geometry_of self.now.geometry) zone }
        ensures pointer { result.pointer ≡ start (geometry_of self.now.geometry) zone + (zone_at self.now zone).pointer }
    {
        let held = self.zones[zone];
        let start = self.geometry.start(zone);
        ZoneReport {
            state: State::from(held.phase),
            start,
            pointer: start + held.pointer,
        }
    }
}
