//! What is noted of a live file.

use trio_names::Name;

/// What the controller notes of a live file beside its row.
#[derive(Clone, Copy)]
pub struct Note {
    /// The file's name; of the root, which has none, a hyphen.
    pub name: Name,
    /// The size that its body says, in bytes.
    pub size: u64,
    /// Whether its body says that it is guarded.
    pub guard: bool,
}
