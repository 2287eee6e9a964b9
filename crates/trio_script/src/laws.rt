//! A law of text words: the body of the function is empty, and its contract is the law.

ghost use Rattle.trio_script.specs.Laws.{ReadsEscaped};

/// Bytes as they are printed are a text word that stands for them.
pub fn escaped_is_read()
    ensures { ReadsEscaped }
{}
