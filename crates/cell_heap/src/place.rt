// Where an object and a scope stand in the cells.

/// Where an object's slots and bytes stand, and what else is kept of it.
#[derive(Clone, Copy, Debug, PartialEq, Eq)]
pub struct Place {
    pub class: u32,
    /// The cell of its first slot.
    pub first_slot: usize,
    /// How many slots stand.
    pub slots: u32,
    /// For how many slots there are cells.
    pub room: u32,
    pub first_byte: usize,
    pub bytes: u32,
    /// Whether it is a literal.
    pub read_only: bool,
    /// The number of a block's closure.
    pub closure: Option<u32>,
}

/// Where a scope's variables stand, and what else is kept of it.
#[derive(Clone, Copy, Debug, PartialEq, Eq)]
pub struct ScopePlace {
    pub code: u32,
    pub outer: Option<u32>,
    /// The cell of its first variable.
    pub first: usize,
    pub variables: u32,
}
