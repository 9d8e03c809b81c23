//! Whether two actions are the same.

ghost use Rattle.std.specs.Prelude.{◌≡◌, ◌↔◌, IsTrue};

use fol_model::{Action, BlockPos, ChunkPos, Entity};

/// Whether two actions are the same.
pub(crate) fn same_action(a: &Action, b: &Action) -> bool
    ensures { IsTrue result ↔ (a.now ≡ b.now) }
{
    match a {
        Action::Set { at, id } => is_set(b, *at, *id),
        Action::Copy { at, to } => is_copy(b, *at, *to),
        Action::Load(chunk) => is_load(b, *chunk),
        Action::Unload(chunk) => is_unload(b, *chunk),
        Action::Post {
            chunk,
            delay,
            action,
        } => {
            matches!(b, Action::Post { chunk: c, delay: d, action: x }
                if *chunk == *c && *delay == *d && same_action(action.get(), x.get()))
        }
        Action::Send { entity, to } => is_send(b, *entity, *to),
        Action::Arrive(entity) => is_arrive(b, *entity),
        Action::Every {
            period,
            left,
            action,
        } => {
            matches!(b, Action::Every { period: p, left: n, action: x }
                if *period == *p && *left == *n && same_action(action.get(), x.get()))
        }
    }
}

/// Whether the action gives this block this number.
fn is_set(action: &Action, at: BlockPos, id: u16) -> bool
    ensures { IsTrue result ↔ (Action.Set at id ≡ action.now) }
{
    matches!(action, Action::Set { at: p, id: n } if at == *p && id == *n)
}

/// Whether the action copies from one of these blocks to the other.
fn is_copy(action: &Action, at: BlockPos, to: BlockPos) -> bool
    ensures { IsTrue result ↔ (Action.Copy at to ≡ action.now) }
{
    matches!(action, Action::Copy { at: p, to: q } if same_place(at, *p) && same_place(to, *q))
}

/// Whether the action loads this chunk.
fn is_load(action: &Action, chunk: ChunkPos) -> bool
    ensures { IsTrue result ↔ (Action.Load chunk ≡ action.now) }
{
    matches!(action, Action::Load(c) if chunk == *c)
}

/// Whether the action unloads this chunk.
fn is_unload(action: &Action, chunk: ChunkPos) -> bool
    ensures { IsTrue result ↔ (Action.Unload chunk ≡ action.now) }
{
    matches!(action, Action::Unload(c) if chunk == *c)
}

/// Whether the action sends this entity to this block.
fn is_send(action: &Action, entity: u32, to: BlockPos) -> bool
    ensures { IsTrue result ↔ (Action.Send entity to ≡ action.now) }
{
    matches!(action, Action::Send { entity: e, to: p } if entity == *e && to == *p)
}

/// Whether the action is the arrival of this entity.
fn is_arrive(action: &Action, entity: Entity) -> bool
    ensures { IsTrue result ↔ (Action.Arrive entity ≡ action.now) }
{
    matches!(action, Action::Arrive(e) if same_entity(entity, *e))
}

/// Whether two blocks are the same.
fn same_place(a: BlockPos, b: BlockPos) -> bool
    ensures { IsTrue result ↔ (a ≡ b) }
{
    a == b
}

/// Whether two entities are the same, and stand at one block with one speed.
fn same_entity(a: Entity, b: Entity) -> bool
    ensures { IsTrue result ↔ (a ≡ b) }
{
    a.id == b.id && same_place(a.at, b.at) && a.vx == b.vx && a.vz == b.vz
}
