//! What an arena hands out for its chains and its nodes.

/// A chain of an arena, from `Arena::new_chain`, by its number.
#[derive(Clone, Copy, Debug, PartialEq, Eq)]
pub struct Chain {
    pub number: u32,
}

/// A node of an arena in which something is prepared, from `Arena::reserve_node`.
#[derive(Clone, Copy, Debug, PartialEq, Eq)]
pub struct Node {
    pub(crate) number: u32,
}

/// No number of a chain.
pub const NO_CHAIN: u32 = u32::MAX;
