//! The rows of the pieces of a leaf, lent.
ghost use Rattle.std.specs.Prelude.{◌≡◌, IfOk};
ghost use Rattle.std.specs.Option.{option_map};
ghost use Rattle.span_collected.specs.Parts.{all_rows};
ghost use Rattle.span_gather.specs.Gathered.{joined_pieces};

use span_collected::part_rows::PartRows;
use span_fragment::piece::Piece;
use std::alloc::{AllocError, Global};

/// The rows of pieces, lent; none where one of the pieces is a fault.
pub(crate) fn lent_parts<'a>(
    alloc: Global,
    pieces: &'a [Piece],
) -> Result<Option<Vec<&'a PartRows>>, AllocError>
    ensures { IfOk result (λ parts. joined_pieces pieces.now ≡ option_map (λ lent. all_rows lent.items) parts) }
{
    let mut parts = Vec::with_capacity(alloc, pieces.len())?;
    for piece in pieces {
        let Some(rows) = piece.rows() else {
            return Ok(None);
        };
        parts.push(rows)?;
    }
    Ok(Some(parts))
}
