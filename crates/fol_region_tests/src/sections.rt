//! What the answers say on small tables, and the border of what fits.
//!
//! A table ends with a call of `drop`, so that what it gives back is proved once, and not again in each test.

use fol_model::{ChunkPos, Grid, SectionPos, distance, section_of};
use fol_sections::{Added, Removed, Sections};
use std::alloc::Global;
use std::fmt::Debug;
use std::process::Abort;

/// What was found is what was wanted.
fn same<T: Debug + PartialEq>(rt: &impl Abort, found: &T, wanted: &T) {
    assert_eq!(rt; *found, *wanted);
}

/// A grid with this section shift and this create radius.
fn grid(rt: &impl Abort, shift: u8, create: u8) -> Grid {
    Grid::of(shift, create, 1, 2, 1, 6).expect(rt, "the grid is within the limits")
}

/// A table with no section.
fn table(rt: &impl Abort, alloc: Global, grid: Grid) -> Sections {
    Sections::new(alloc, grid).expect(rt, "memory")
}

/// Adds a hold.
fn load(rt: &impl Abort, sections: &mut Sections, x: i32, z: i32) -> Added {
    let c = ChunkPos { x, z };
    sections.reserve(1).expect(rt, "memory");
    assert!(rt; sections.spare() >= 1 && c.in_range() && sections.holds(c) < 1_000_000);
    sections.add(c)
}

/// Adds a hold on a chunk with z 0, which has this answer and makes so many sections.
fn adds(rt: &impl Abort, sections: &mut Sections, x: i32, answer: Added, made: usize) {
    same(rt, &load(rt, sections, x, 0), &answer);
    same(rt, &sections.filled().len(), &made);
}

/// Removes a hold on the chunk at the origin, which has this answer and leaves so many sections dead.
fn removes(rt: &impl Abort, sections: &mut Sections, answer: Removed, died: usize) {
    same(rt, &sections.remove(ChunkPos { x: 0, z: 0 }), &answer);
    same(rt, &sections.died().len(), &died);
}

/// So many sections are present.
fn count_is(rt: &impl Abort, sections: &Sections, count: u32) {
    same(rt, &sections.count(), &count);
}

/// The last hold made these sections.
fn filled_is(rt: &impl Abort, sections: &Sections, made: &[SectionPos]) {
    assert_eq!(rt; *sections.filled(), *made);
}

/// Three chunks in one row: the first has two holds, and the last needs sections between the others.
fn load_three(rt: &impl Abort, sections: &mut Sections) {
    adds(rt, sections, 0, Added::Filled, 9);
    adds(rt, sections, 0, Added::Counted, 0);
    adds(rt, sections, 4, Added::Filled, 9);
    adds(rt, sections, 1, Added::Filled, 3);
}

/// The two holds of the first chunk fall.
fn unload_first(rt: &impl Abort, sections: &mut Sections) {
    removes(rt, sections, Removed::Lowered, 0);
    removes(rt, sections, Removed::Gone, 3);
    removes(rt, sections, Removed::NotLoaded, 0);
}

#[test]
fn sections_come_and_are_shared(rt: HostRuntime) {
    let mut sections = table(&rt, rt.alloc(), grid(&rt, 0, 1));
    load_three(&rt, &mut sections);
    let made = [
        SectionPos { x: 2, z: -1 },
        SectionPos { x: 2, z: 0 },
        SectionPos { x: 2, z: 1 },
    ];
    filled_is(&rt, &sections, &made);
    count_is(&rt, &sections, 21);
    drop(sections);
}

#[test]
fn holds_fall_and_a_copy_is_the_same(rt: HostRuntime) {
    let mut sections = table(&rt, rt.alloc(), grid(&rt, 0, 1));
    load_three(&rt, &mut sections);
    unload_first(&rt, &mut sections);
    let copy = sections.copy(rt.alloc()).expect(&rt, "memory");
    count_is(&rt, &copy, 21);
    drop(copy);
    drop(sections);
}

/// So many sections with a loaded chunk are near a section, which is present.
fn neighbours_are(rt: &impl Abort, sections: &Sections, s: SectionPos, count: u32) {
    assert!(rt; sections.is_present(s));
    same(rt, &sections.neighbours(s), &count);
}

/// Takes a present section out if it is dead, and says whether it was.
fn drop_one(rt: &impl Abort, alloc: Global, sections: &mut Sections, s: SectionPos) -> bool {
    let mut list = Vec::from_slice(alloc, &[s]).expect(rt, "memory");
    assert!(rt; sections.is_present(s));
    sections.drop_dead(&mut list);
    list.is_empty()
}

/// Takes out the one dead section that is asked for, beside a living one.
fn one_leaves(rt: &impl Abort, alloc: Global, sections: &mut Sections) {
    let dead = SectionPos { x: 4, z: 1 };
    neighbours_are(rt, sections, SectionPos { x: -1, z: 0 }, 1);
    neighbours_are(rt, sections, dead, 0);
    assert!(rt; drop_one(rt, alloc, sections, dead));
    assert!(rt; !sections.is_present(dead));
    count_is(rt, sections, 17);
}

#[test]
fn dead_sections_leave(rt: HostRuntime) {
    let mut sections = table(&rt, rt.alloc(), grid(&rt, 4, 1));
    load(&rt, &mut sections, -1, 0);
    load(&rt, &mut sections, 48, 0);
    sections.remove(ChunkPos { x: 48, z: 0 });
    one_leaves(&rt, rt.alloc(), &mut sections);
    drop(sections);
}

/// The loaded chunks of a section are these.
fn chunks_are(
    rt: &impl Abort,
    alloc: Global,
    sections: &Sections,
    s: SectionPos,
    chunks: &[ChunkPos],
) {
    let room = sections.loaded_in(s) as usize;
    let mut listed = Vec::with_capacity(alloc, room).expect(rt, "memory");
    sections.chunks_among(&[s], &mut listed);
    same(rt, &room, &chunks.len());
    assert_eq!(rt; *listed.as_slice(), *chunks);
}

/// Loads three chunks of one section, and one of another.
fn load_four(rt: &impl Abort, sections: &mut Sections) {
    load(rt, sections, -1, -4);
    load(rt, sections, -4, -1);
    load(rt, sections, 0, -1);
    load(rt, sections, -4, -4);
}

#[test]
fn chunks_are_listed(rt: HostRuntime) {
    let mut sections = table(&rt, rt.alloc(), grid(&rt, 2, 1));
    load_four(&rt, &mut sections);
    let chunks = [
        ChunkPos { x: -4, z: -4 },
        ChunkPos { x: -1, z: -4 },
        ChunkPos { x: -4, z: -1 },
    ];
    let section = SectionPos { x: -1, z: -1 };
    chunks_are(&rt, rt.alloc(), &sections, section, &chunks);
    drop(sections);
}

/// The same table as two plain lists, which counts anew at each question.
#[derive(Drop)]
struct Plain {
    grid: Grid,
    loaded: Vec<ChunkPos>,
    present: Vec<SectionPos>,
}

impl Plain {
    /// A table with no section.
    fn new(alloc: Global, grid: Grid) -> Plain {
        Plain {
            grid,
            loaded: Vec::new(alloc),
            present: Vec::new(alloc),
        }
    }

    /// How many loaded chunks a section has.
    fn loaded_in(&self, s: SectionPos) -> u64 {
        let mut count = 0u64;
        for c in &self.loaded {
            if section_of(&self.grid, *c) == s {
                count = count.saturating_add(1);
            }
        }
        count
    }

    /// How many sections near a section have a loaded chunk.
    fn neighbours(&self, s: SectionPos) -> u32 {
        let mut count = 0u32;
        for q in &self.present {
            if distance(s, *q) <= self.grid.create as u32 && self.loaded_in(*q) > 0 {
                count = count.saturating_add(1);
            }
        }
        count
    }

    /// Makes a section present.
    fn make(&mut self, rt: &impl Abort, s: SectionPos) {
        if !self.present.contains(&s) {
            self.present.push(s).expect(rt, "memory");
        }
    }

    /// Loads a chunk that is not loaded.
    fn load(&mut self, rt: &impl Abort, c: ChunkPos) {
        self.loaded.push(c).expect(rt, "memory");
        let home = section_of(&self.grid, c);
        let reach = self.grid.create as i32;
        for z in 0 - reach..reach + 1 {
            for x in 0 - reach..reach + 1 {
                let s = SectionPos {
                    x: home.x.wrapping_add(x),
                    z: home.z.wrapping_add(z),
                };
                self.make(rt, s);
            }
        }
    }

    /// Takes a present section out if it is dead.
    fn leave(&mut self, s: SectionPos) {
        if self.neighbours(s) == 0 {
            self.present.retain(|q| *q != s);
        }
    }
}

/// Whether both tables say the same of a section.
fn is_alike(sections: &Sections, plain: &Plain, s: SectionPos) -> bool {
    let present = sections.is_present(s);
    present == plain.present.contains(&s)
        && sections.loaded_in(s) == plain.loaded_in(s)
        && (!present || sections.neighbours(s) == plain.neighbours(s))
}

/// Both tables say the same of all sections round the origin.
fn compare(rt: &impl Abort, sections: &Sections, plain: &Plain) {
    same(rt, &(sections.count() as usize), &plain.present.len());
    for z in -14i32..15 {
        for x in -14i32..15 {
            assert!(rt;
                is_alike(sections, plain, SectionPos { x, z }),
                "at {x} {z}"
            );
        }
    }
}

/// Loads chunks in both tables.
fn load_both(rt: &impl Abort, sections: &mut Sections, plain: &mut Plain, chunks: &[ChunkPos]) {
    for c in chunks {
        load(rt, sections, c.x, c.z);
        plain.load(rt, *c);
    }
}

/// Takes the dead sections of a row out of both tables.
fn leave_both(rt: &impl Abort, alloc: Global, sections: &mut Sections, plain: &mut Plain, z: i32) {
    for x in -14i32..15 {
        let s = SectionPos { x, z };
        if sections.is_present(s) {
            drop_one(rt, alloc, sections, s);
            plain.leave(s);
        }
    }
}

/// Unloads chunks in both tables, and compares them after each.
fn unload_both(
    rt: &impl Abort,
    alloc: Global,
    sections: &mut Sections,
    plain: &mut Plain,
    chunks: &[ChunkPos],
) {
    for c in chunks {
        sections.remove(*c);
        plain.loaded.retain(|other| *other != *c);
        leave_both(rt, alloc, sections, plain, c.z);
        compare(rt, sections, plain);
    }
}

/// Both tables are alike while the four chunks of a row come, and while they go.
fn stay_alike(rt: &impl Abort, alloc: Global, grid: Grid, row: &[(i32, i32); 4]) {
    let chunks = row.map(|(x, z)| ChunkPos { x, z });
    let mut sections = table(rt, alloc, grid);
    let mut plain = Plain::new(alloc, grid);
    load_both(rt, &mut sections, &mut plain, &chunks);
    compare(rt, &sections, &plain);
    unload_both(rt, alloc, &mut sections, &mut plain, &chunks);
    drop(sections);
    drop(plain);
}

#[test]
fn pages_say_what_lists_say(rt: HostRuntime) {
    let rows = [
        (0, 1, [(0, 0), (1, 0), (0, 1), (2, 2)]),
        (0, 8, [(0, 0), (3, -3), (-6, 5), (6, 6)]),
        (1, 1, [(-1, -1), (-2, -2), (15, 15), (16, 16)]),
        (0, 2, [(7, -8), (8, -9), (-8, 7), (-9, 8)]),
    ];
    for (shift, create, row) in &rows {
        stay_alike(&rt, rt.alloc(), grid(&rt, *shift, *create), row);
    }
}

/// A hold is refused, since so many sections are present and so many are missing.
fn is_full(rt: &impl Abort, sections: &mut Sections, x: i32, present: u32, wanted: u32) {
    adds(rt, sections, x, Added::Full { present, wanted }, 0);
    count_is(rt, sections, present);
}

/// 56 chunks of 289 sections each fit, and the next does not.
#[test]
fn no_more_than_fit(rt: HostRuntime) {
    let mut sections = table(&rt, rt.alloc(), grid(&rt, 0, 8));
    for i in 0..56u16 {
        adds(&rt, &mut sections, 40 * i as i32, Added::Filled, 289);
    }
    is_full(&rt, &mut sections, 2_240, 16_184, 289);
    drop(sections);
}

/// Loads a square of four chunks.
fn load_square(rt: &impl Abort, sections: &mut Sections, x: i32) {
    load(rt, sections, x, 0);
    load(rt, sections, x, 1);
    load(rt, sections, x.wrapping_add(1), 0);
    load(rt, sections, x.wrapping_add(1), 1);
}

/// 1,024 groups of 16 sections fill the table to the last place.
#[test]
fn the_last_place_is_used(rt: HostRuntime) {
    let mut sections = table(&rt, rt.alloc(), grid(&rt, 0, 1));
    for i in 0..1_024u16 {
        load_square(&rt, &mut sections, 8 * i as i32);
    }
    adds(&rt, &mut sections, 0, Added::Counted, 0);
    is_full(&rt, &mut sections, 9_000, 16_384, 9);
    drop(sections);
}
