//! The laws of literals, each as the contract of a function that does nothing.
ghost use Rattle.span_lexer.specs.LiteralPieces.{TextByPieces, BytesByPieces};

/// The value of a string literal is the values of its pieces, each a character or an escape, in order.
pub fn text_by_pieces()
    ensures { TextByPieces }
{}

/// So is the value of a BYTES literal.
pub fn bytes_by_pieces()
    ensures { BytesByPieces }
{}
