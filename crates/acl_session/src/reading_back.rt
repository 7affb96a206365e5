//! The law of reading back.

ghost use Rattle.model_text_laws.specs.Laws.{ReadsBack};

/// The text of a value, followed by a delimiter, is read as that value and makes no new symbol known, where its symbols
/// are known and may be named, and text and delimiter are within the limits on nesting, on bytes of a form and on bytes of
/// an input. It takes nothing and gives nothing.
pub fn reads_back()
    ensures { ReadsBack }
{}
