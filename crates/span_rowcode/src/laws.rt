//! The law of packed rows, as the contract of a function that does nothing.
ghost use Rattle.span_rowcode.specs.Laws.{OneRow};

/// Different rows of a table have different packings, so what is unpacked of a packed row is that row.
pub fn one_row()
    ensures { OneRow }
{}
