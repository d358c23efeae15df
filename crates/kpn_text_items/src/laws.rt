//! Laws of item files: facts about the definitions only, each the contract of a function that does nothing.

ghost use Rattle.kpn_text_items.specs.Laws.{ReadsBack, IsUnambiguous, ExcludesSpelling};

/// What `write_items` writes spells the items written.
pub fn written_items_read_back()
    ensures { ReadsBack }
{}

/// Bytes spell at most one list of items.
pub fn spelling_is_unique()
    ensures { IsUnambiguous }
{}

/// Bytes with a first bad line spell no list of items, and have no other first bad line.
pub fn bad_line_excludes_spelling()
    ensures { ExcludesSpelling }
{}
