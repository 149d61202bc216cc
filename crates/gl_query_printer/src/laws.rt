//! Laws of the canonical text. The contract of each function is the law; it does nothing.

ghost use Rattle.gl_query_printer.specs.Printing.{CanonicalTextsAreRead};

/// The canonical text of a statement that some text has, where it passes no limit, has that
/// statement, but for its places.
pub fn canonical_texts_are_read()
    ensures { CanonicalTextsAreRead }
{}
