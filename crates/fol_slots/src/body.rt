//! What can lie in a slot.

/// What lies in a slot.
pub trait Body: Drop {
    /// What the keeper must know of a body that it offers, and a worker learns of a body that it claims.
    ghost fit: { Self → Type 0 };
}
