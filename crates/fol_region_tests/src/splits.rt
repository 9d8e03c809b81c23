//! The parts of small and of large sets of sections.
//!
//! Each test ends with a call of `drop`, so that what a splitter gives back is proved once, and not again in each test.

ghost use Rattle.std.specs.Prelude.{◌≡◌, IsTrue};
ghost use Rattle.std.specs.List.{All, IsDistinct};
ghost use Rattle.std.specs.Ordering.{is_lt};
ghost use Rattle.std.specs.declared.cmp.Ordering.TheVariants.{Less};
ghost use Rattle.fol_model.specs.Geometry.{is_section, same_section};
ghost use Rattle.fol_model.specs.Universe.{section_cmp};

use fol_model::SectionPos;
use fol_split::Splitter;
use std::alloc::Global;
use std::process::Abort;

/// Whether the first section is before the second.
fn is_before(a: SectionPos, b: SectionPos) -> bool
    ensures { IsTrue result → section_cmp a b ≡ Less }
{
    a.z < b.z || a.z == b.z && a.x < b.x
}

/// Whether sections are within the limits and rise, so that they are distinct.
fn is_rising(sections: &[SectionPos]) -> bool
    ensures distinct { IsTrue result → IsDistinct same_section sections.now }
    ensures in_range { IsTrue result → All (λ s. IsTrue (is_section s)) sections.now }
{
    for i in 0..sections.len() {
        if !sections[i].in_range() {
            return false;
        }
        if i > 0 {
            if !is_before(sections[i - 1], sections[i]) {
                return false;
            }
        }
    }
    true
}

/// The sizes of the parts.
fn sizes_are(
    rt: &impl Abort,
    splitter: &mut Splitter,
    sections: &[SectionPos],
    merge: u8,
    sizes: &[usize],
) {
    assert!(rt; is_rising(sections) && sections.len() <= 16_384 && 1 <= merge && merge <= 4);
    splitter.parts(sections, merge);
    assert_eq!(rt; splitter.count() as usize, sizes.len());
    for i in 0..splitter.count() {
        assert_eq!(rt; splitter.part(i).len(), sizes[i as usize], "part {i}");
    }
}

#[test]
fn a_corner_joins_and_a_gap_parts(rt: HostRuntime) {
    let mut splitter = Splitter::new(rt.alloc()).expect(&rt, "memory");
    let sections = [
        SectionPos { x: 0, z: 0 },
        SectionPos { x: 1, z: 1 },
        SectionPos { x: 3, z: 1 },
    ];
    sizes_are(&rt, &mut splitter, &sections, 1, &[2, 1]);
    sizes_are(&rt, &mut splitter, &sections, 2, &[3]);
    sizes_are(&rt, &mut splitter, &[], 1, &[]);
    drop(splitter);
}

/// Adds each second one of 256 sections of a row.
fn add_row(rt: &impl Abort, sections: &mut Vec<SectionPos>, z: u8) {
    for x in 0..128u8 {
        let s = SectionPos {
            x: 2 * x as i32 - 100,
            z: z as i32 - 50,
        };
        sections.push(s).expect(rt, "memory");
    }
}

/// A square of 128 by 128 sections, each second column left out.
fn columns(rt: &impl Abort, alloc: Global) -> Vec<SectionPos> {
    let mut sections = Vec::with_capacity(alloc, 16_384).expect(rt, "memory");
    for z in 0..128u8 {
        add_row(rt, &mut sections, z);
    }
    sections
}

#[test]
fn columns_are_parts_of_their_own(rt: HostRuntime) {
    let mut splitter = Splitter::new(rt.alloc()).expect(&rt, "memory");
    let sections = columns(&rt, rt.alloc());
    sizes_are(&rt, &mut splitter, &sections, 1, &[128; 128]);
    sizes_are(&rt, &mut splitter, &sections, 2, &[16_384]);
    sizes_are(&rt, &mut splitter, &sections, 4, &[16_384]);
    drop(splitter);
}

#[test]
fn runs_are_near_within_the_merge_radius(rt: HostRuntime) {
    let mut splitter = Splitter::new(rt.alloc()).expect(&rt, "memory");
    // Three runs in one row with gaps of one and of three, and two runs three rows below.
    let sections = [
        SectionPos { x: -4, z: -1 },
        SectionPos { x: -3, z: -1 },
        SectionPos { x: -1, z: -1 },
        SectionPos { x: 3, z: -1 },
        SectionPos { x: 4, z: -1 },
        SectionPos { x: 1, z: 2 },
        SectionPos { x: 8, z: 2 },
        SectionPos { x: 9, z: 2 },
    ];
    sizes_are(&rt, &mut splitter, &sections, 1, &[2, 1, 2, 1, 2]);
    sizes_are(&rt, &mut splitter, &sections, 2, &[3, 2, 1, 2]);
    sizes_are(&rt, &mut splitter, &sections, 3, &[6, 2]);
    sizes_are(&rt, &mut splitter, &sections, 4, &[8]);
    drop(splitter);
}
