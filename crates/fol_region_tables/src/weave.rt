//! Two lists of sections in order become one.

ghost use Rattle.std.specs.Prelude.{◌≡◌, ◌≢◌, ◌+◌, ◌≤◌, List, ◌∷◌, length};
ghost use Rattle.std.specs.Vec.{vec_capacity};
ghost use Rattle.std.specs.List.Sorted.{IsStrictlySortedBy};
ghost use Rattle.std.specs.declared.cmp.Ordering.TheVariants.{Less};
ghost use Rattle.fol_model.specs.declared.places.SectionPos.{SectionPos};
ghost use Rattle.fol_model.specs.Universe.{section_cmp};
ghost use Rattle.fol_region_tables.specs.Rows.{AreApart, IsRow, MovesFront, united};

use crate::rows::compare;
use fol_model::SectionPos;
use std::cmp::Ordering;

/// Puts the sections of two lists in order, which have none in common, into a list with room for them, in order.
pub fn weave(xs: &[SectionPos], ys: &[SectionPos], out: &mut Vec<SectionPos>)
    requires first { IsRow xs.now }
    requires second { IsRow ys.now }
    requires apart { AreApart xs.now ys.now }
    requires room { length xs.now + length ys.now ≤ vec_capacity out.old }
    ensures woven { out.new.items ≡ united xs.now ys.now }
    ensures len { length out.new.items ≡ length xs.now + length ys.now }
    ensures room { vec_capacity out.old ≤ vec_capacity out.new }
{
    out.clear();
    let mut rest = xs;
    let mut later = ys;
    while let Some((s, others)) = rest.split_first() {
        later = put_before(later, *s, out);
        out.push_reserved(*s);
        rest = others;
    }
    let _ = out.extend_from_slice(later);
}

/// Puts those sections at the front of a list in order that are before another one behind a list with room for them, and returns the others.
fn put_before<'a>(
    sections: &'a [SectionPos],
    s: SectionPos,
    out: &mut Vec<SectionPos>,
) -> &'a [SectionPos]
    requires room { length out.old.items + length sections.now ≤ vec_capacity out.old }
    ensures moved { MovesFront s sections.now out.old.items out.new.items result.now }
    ensures behind { (x : SectionPos) (xs : List SectionPos) → result.now ≡ x ∷ xs
        → section_cmp x s ≢ Less }
    ensures room { vec_capacity out.old ≤ vec_capacity out.new }
{
    let mut left = sections;
    while let Some((first, later)) = left.split_first() {
        match compare(*first, s) {
            Ordering::Less => out.push_reserved(*first),
            _ => return left,
        }
        left = later;
    }
    left
}
