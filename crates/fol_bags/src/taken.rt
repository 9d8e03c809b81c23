//! A bag in the hands of a worker.

use fol_data::RegionData;
use fol_keyed::ChunkSet;

/// What was taken out of a store: the chunks of a region, by z and then by x, and all that lies on them.
#[derive(Drop)]
pub struct Taken {
    pub chunks: ChunkSet,
    pub body: RegionData,
}
