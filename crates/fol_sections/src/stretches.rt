//! Stretches of a list of sections that lie in one page, for which the page is looked up once.

ghost use Rattle.std.specs.Prelude.{◌≡◌, ◌+◌, ◌<◌, ◌≤◌, ◌^◌, ◌++◌, filter, length, nat_eq, nat_lt, sum_by};
ghost use Rattle.std.specs.List.{All};
ghost use Rattle.std.specs.Vec.{vec_capacity};
ghost use Rattle.fol_sections.specs.Pages.{IsOnPage, chunks_at, chunks_on, near_at, near_on};

use crate::pages::{Page, Pages, empty_page, loaded_on, near_in};
use fol_model::SectionPos;
use fol_pages::{page_of, stretch_len};

/// Adds those sections of a list to one list near which no section of their page holds a loaded chunk, and the others to another.
fn split_on(
    page: &Page,
    part: &[SectionPos],
    living: &mut Vec<SectionPos>,
    dead: &mut Vec<SectionPos>,
)
    requires living_room { length living.old.items + length part.now ≤ vec_capacity living.old }
    requires dead_room { length dead.old.items + length part.now ≤ vec_capacity dead.old }
    ensures living { living.new.items
        ≡ living.old.items ++ filter (λ s. nat_lt 0 (near_on page.now s)) part.now }
    ensures dead { dead.new.items
        ≡ dead.old.items ++ filter (λ s. nat_eq (near_on page.now s) 0) part.now }
    ensures living_room { vec_capacity living.new ≡ vec_capacity living.old }
    ensures dead_room { vec_capacity dead.new ≡ vec_capacity dead.old }
{
    for s in part {
        if near_in(page, *s) == 0 {
            dead.push_reserved(*s);
        } else {
            living.push_reserved(*s);
        }
    }
}

/// Adds those sections of a list, all in the page of `first`, to one list near which no section holds a loaded chunk, and the
/// others to another.
fn split_stretch(
    pages: &Pages,
    first: SectionPos,
    part: &[SectionPos],
    living: &mut Vec<SectionPos>,
    dead: &mut Vec<SectionPos>,
)
    requires page { All (IsOnPage first) part.now }
    requires living_room { length living.old.items + length part.now ≤ vec_capacity living.old }
    requires dead_room { length dead.old.items + length part.now ≤ vec_capacity dead.old }
    ensures living { living.new.items
        ≡ living.old.items ++ filter (λ s. nat_lt 0 (near_at pages.now.entries s)) part.now }
    ensures dead { dead.new.items
        ≡ dead.old.items ++ filter (λ s. nat_eq (near_at pages.now.entries s) 0) part.now }
    ensures living_room { vec_capacity living.new ≡ vec_capacity living.old }
    ensures dead_room { vec_capacity dead.new ≡ vec_capacity dead.old }
{
    match pages.get(page_of(first)) {
        Some(page) => split_on(page, part, living, dead),
        None => split_on(&empty_page(), part, living, dead),
    }
}

/// Adds those sections of a list to one list near which no section holds a loaded chunk, and the others to another.
pub fn split_list(
    pages: &Pages,
    list: &[SectionPos],
    living: &mut Vec<SectionPos>,
    dead: &mut Vec<SectionPos>,
)
    requires living_room { length living.old.items + length list.now ≤ vec_capacity living.old }
    requires dead_room { length dead.old.items + length list.now ≤ vec_capacity dead.old }
    ensures living { living.new.items
        ≡ living.old.items ++ filter (λ s. nat_lt 0 (near_at pages.now.entries s)) list.now }
    ensures dead { dead.new.items
        ≡ dead.old.items ++ filter (λ s. nat_eq (near_at pages.now.entries s) 0) list.now }
    ensures living_room { vec_capacity living.new ≡ vec_capacity living.old }
    ensures dead_room { vec_capacity dead.new ≡ vec_capacity dead.old }
{
    let mut rest = list;
    while !rest.is_empty() {
        let (part, after) = rest.split_at(stretch_len(rest));
        split_stretch(pages, part[0], part, living, dead);
        rest = after;
    }
}

/// How many loaded chunks the sections of a list hold that lie in a page.
fn count_on(page: &Page, part: &[SectionPos]) -> u64
    requires { sum_by (chunks_on page.now) part.now < 2 ^ 62 }
    ensures { result ≡ sum_by (chunks_on page.now) part.now }
{
    let mut count = 0;
    for s in part {
        count += loaded_on(page, *s);
    }
    count
}

/// How many loaded chunks the sections of a list hold, all in the page of `first`.
fn count_stretch(pages: &Pages, first: SectionPos, part: &[SectionPos]) -> u64
    requires page { All (IsOnPage first) part.now }
    requires few { sum_by (chunks_at pages.now.entries) part.now < 2 ^ 62 }
    ensures { result ≡ sum_by (chunks_at pages.now.entries) part.now }
{
    match pages.get(page_of(first)) {
        Some(page) => count_on(page, part),
        None => 0,
    }
}

/// How many loaded chunks the sections of a list hold.
pub fn count_list(pages: &Pages, list: &[SectionPos]) -> u64
    requires { sum_by (chunks_at pages.now.entries) list.now < 2 ^ 62 }
    ensures { result ≡ sum_by (chunks_at pages.now.entries) list.now }
{
    let mut count = 0;
    let mut rest = list;
    while !rest.is_empty() {
        let (part, after) = rest.split_at(stretch_len(rest));
        count += count_stretch(pages, part[0], part);
        rest = after;
    }
    count
}
