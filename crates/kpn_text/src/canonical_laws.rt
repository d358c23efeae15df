//! The laws of the canonical text. Each is a function without code: its contract is the law, and the
//! proof of the function is the proof of the law.

ghost use Rattle.kpn_text.specs.CanonicalLaws.{
  DescriptionIsRead,
  LanguageIsTold,
  ProcessIsRead,
  ReadDescriptionsAreProper,
  StatementsAreRead,
  TermIsRead,
};

/// The tokens of a printed expression are its spelling.
pub fn term_is_read()
    ensures { TermIsRead }
{}

/// The tokens of printed statements are their spelling.
pub fn statements_are_read()
    ensures { StatementsAreRead }
{}

/// The tokens of a printed process are its spelling.
pub fn process_is_read()
    ensures { ProcessIsRead }
{}

/// The tokens of a printed description are its spelling.
pub fn description_is_read()
    ensures { DescriptionIsRead }
{}

/// A printed description is of the language in which it is printed.
pub fn language_is_told()
    ensures { LanguageIsTold }
{}

/// A description that was read from a text has names that are names, and numbers in range.
pub fn read_descriptions_are_proper()
    ensures { ReadDescriptionsAreProper }
{}
