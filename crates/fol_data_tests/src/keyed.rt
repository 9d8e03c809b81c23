//! Which chunks a list has, and which lists of chunks are rectangles.

use fol_keyed::{ChunkList, Rectangle};
use fol_model::ChunkPos;
use std::test::Fail;

const CHUNKS: [ChunkPos; 2] = [ChunkPos { x: 5, z: -1 }, ChunkPos { x: 0, z: 0 }];

/// A list has its chunks alone.
#[test]
fn a_list_has_its_chunks(rt: HostRuntime) -> Result<(), Fail> {
    let list = ChunkList::of(&CHUNKS);
    assert!(rt; list.has(ChunkPos { x: 5, z: -1 }));
    assert!(rt; !list.has(ChunkPos { x: 5, z: 0 }));
    Ok(())
}

/// Four chunks of a rectangle, and the first of them that are none.
const SQUARE: [ChunkPos; 4] = [
    ChunkPos { x: -1, z: 7 },
    ChunkPos { x: 0, z: 7 },
    ChunkPos { x: -1, z: 8 },
    ChunkPos { x: 0, z: 8 },
];

/// A rectangle is found where there is one, by its corners.
#[test]
fn a_rectangle_is_found(rt: HostRuntime) -> Result<(), Fail> {
    let square = Rectangle::of(&SQUARE).ok_or("the square is a rectangle")?;
    assert!(rt; square.first == SQUARE[0]);
    assert!(rt; square.last == SQUARE[3]);
    assert!(rt; Rectangle::of(&SQUARE[..2]).is_some());
    assert!(rt; Rectangle::of(&SQUARE[..3]).is_none());
    assert!(rt; Rectangle::of(&CHUNKS).is_none());
    assert!(rt; Rectangle::of(&[]).is_none());
    Ok(())
}
