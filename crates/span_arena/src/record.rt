//! How an arena lays out its nodes and its chains.
ghost use Rattle.std.specs.Prelude.{◌≡◌};
ghost use Rattle.span_arena.specs.Images.{image_of};
ghost use Rattle.span_arena.specs.Runs.{version_of};

use crate::version::LentVersion;
use span_value::seq::Seq;
use std::alloc::Global;

/// What a node is used for.
#[derive(Clone, Copy, Debug)]
pub(crate) enum NodeUse {
    /// It is in the free list, with this count of nodes from it on.
    Free(u32),
    /// Something is prepared in it for this chain.
    Reserved(u32),
    /// It is in this chain.
    Linked(u32),
}

/// A node. It has an image where something is prepared, and a timestamp too where it is in a chain. Whether there is an image is
/// beside the numbers: an `Option` of the image takes 8 bytes more.
#[derive(Debug, Drop)]
pub(crate) struct NodeRecord {
    pub used: NodeUse,
    /// The next older node of its chain, or the next one of the free list.
    pub next: u32,
    pub has_image: bool,
    pub timestamp: u64,
    /// It is empty where there is none.
    pub image: Seq<u8>,
}

const _: () = prove!(size_of::<NodeRecord>() == 48);

impl NodeRecord {
    /// Its version, lent.
    pub(crate) fn version(&self) -> LentVersion<'_>
        ensures { result ≡ version_of self.now }
    {
        LentVersion::new(self.timestamp, self.has_image, &self.image)
    }
}

/// An image as a node has it.
pub(crate) fn split_image(alloc: Global, image: Option<Seq<u8>>) -> (bool, Seq<u8>)
    ensures { image_of result.0 result.1 ≡ image }
{
    match image {
        None => (false, Seq::new(alloc)),
        Some(bytes) => (true, bytes),
    }
}

/// What a node has, as an image.
pub(crate) fn join_image(has_image: bool, image: Seq<u8>) -> Option<Seq<u8>>
    ensures { result ≡ image_of has_image image }
{
    if has_image { Some(image) } else { None }
}

/// A chain, by its number.
#[derive(Clone, Copy, Debug)]
pub(crate) enum ChainRecord {
    /// It is in the list of free chains: the next one, and how many there are from it on.
    Free(u32, u32),
    Used(VersionLinks),
}

const _: () = prove!(size_of::<ChainRecord>() == 16);

/// Where the versions of a chain begin.
#[derive(Clone, Copy, Debug)]
pub(crate) struct VersionLinks {
    /// The node of the newest version, if there is one.
    pub newest: u32,
    /// How many versions it has.
    pub count: u32,
    /// How many nodes something is prepared in for it.
    pub prepared: u32,
}
