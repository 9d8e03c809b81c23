//! How chunks are grouped, and which section a chunk is in.

ghost use Rattle.std.specs.Prelude.{◌≡◌, IfSome, IsSome, ◌↔◌};
ghost use Rattle.fol_model.specs.GridNumbers.{IsGrid, numbers};
ghost use Rattle.fol_model.specs.Geometry.{section_of as section_around};

use crate::{ChunkPos, SectionPos};
use std::marker::Model;

/// How chunks are grouped into sections, and sections into regions.
///
/// Every value is within the limits: `shift` is 0 to 5, `create` 1 to 8, `merge` 1 to 4, `min` 1 to 16,384, `num` 0 to 1,000 and
/// `den` 1 to 1,000.
#[derive(Clone, Copy)]
pub struct Grid {
    /// A section has `2^shift` by `2^shift` chunks.
    pub shift: u8,
    /// A loaded chunk needs all sections this far around its own: the margin.
    pub create: u8,
    /// Sections that are this far apart, or less, belong together.
    pub merge: u8,
    /// A smaller region is cleaned only where all its sections are dead or another region joined it.
    pub min: u32,
    /// A region is cleaned where at least `num / den` of its sections are dead.
    pub num: u32,
    /// The denominator of that share.
    pub den: u32,
}

impl Model for Grid {
    ghost use Rattle.fol_model.specs.GridNumbers.{GridNumbers, IsGrid};

    ghost Value = { GridNumbers };

    ghost view = { λ g. record { shift = g.shift; create = g.create; merge = g.merge; min = g.min; num = g.num; den = g.den } };

    ghost invariant = { λ g. IsGrid (record { shift = g.shift; create = g.create; merge = g.merge; min = g.min; num = g.num; den = g.den }) };

    ghost inverse = { λ g. record { shift = g.shift; create = g.create; merge = g.merge; min = g.min; num = g.num; den = g.den } };
}

impl Grid {
    /// The grid with these numbers; `None` exactly where one of them is outside its limits.
    pub fn of(shift: u8, create: u8, merge: u8, min: u32, num: u32, den: u32) -> Option<Grid>
        ensures known { IsSome result ↔ IsGrid (numbers shift create merge min num den) }
        ensures value { IfSome result (λ g. g ≡ numbers shift create merge min num den) }
    {
        let sizes = shift <= 5 && 1 <= create && create <= 8 && 1 <= merge && merge <= 4;
        let cleaning = 1 <= min && min <= 16_384 && num <= 1_000 && 1 <= den && den <= 1_000;
        if sizes && cleaning {
            Some(Grid {
                shift,
                create,
                merge,
                min,
                num,
                den,
            })
        } else {
            None
        }
    }
}

/// The section that the chunk is in.
#[tactic(auto, unfolding(crate::specs::Geometry::section_of))]
pub fn section_of(grid: &Grid, c: ChunkPos) -> SectionPos
    ensures { result ≡ section_around grid.now c }
{
    let side = 1i32 << grid.shift;
    SectionPos {
        x: c.x.div_euclid(side),
        z: c.z.div_euclid(side),
    }
}
