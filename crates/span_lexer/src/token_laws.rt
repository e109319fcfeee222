//! The laws of tokens, each as the contract of a function that does nothing.
ghost use Rattle.span_lexer.specs.TokenIntegers.{IntegersAreInt64};
ghost use Rattle.span_lexer.specs.TokenTexts.{PartsAreReadUnchanged, TokensAreReadUnchanged};

/// A part of a text in UTF-8 that begins and ends between characters is in UTF-8: a lossy reading of it gives the bytes that
/// are there, and no replacement character.
pub fn parts_are_read_unchanged()
    ensures { PartsAreReadUnchanged }
{}

/// Each token of a text in UTF-8 is such a part: the name that is read from a token is the one in the text.
pub fn tokens_are_read_unchanged()
    ensures { TokensAreReadUnchanged }
{}

/// Each integer of a text is at most 9,223,372,036,854,775,807, so that INT64 has it with either sign.
pub fn integers_are_int64()
    ensures { IntegersAreInt64 }
{}
