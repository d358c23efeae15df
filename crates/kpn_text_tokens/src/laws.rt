//! The laws of the tokens. Each is a function without code: its contract is the law, and the proof of the function is
//! the proof of the law.

ghost use Rattle.kpn_text_tokens.specs.Laws.{
  DecimalIsSpelled,
  EmptyTextHasNoTokens,
  ReadTokensAreSpelled,
  ScanFollowsTheRules,
  ShortTextIsScanned,
  SpelledTokenIsRead,
  TokensKeepTheirKind,
  WhiteSpaceIsDropped,
  WhiteSpaceSeparates,
  WhiteSpaceSeparatesTokens,
};

/// A scan of a text returns what the rules of the format say, and they allow only one result.
pub fn scan_follows_the_rules()
    ensures { ScanFollowsTheRules }
{}

/// A text within the limit is scanned from its first byte.
pub fn short_text_is_scanned()
    ensures { ShortTextIsScanned }
{}

/// If white space parts a text, the text is read as its parts are, one after the other.
pub fn white_space_separates()
    ensures lexemes { WhiteSpaceSeparates }
    ensures tokens { WhiteSpaceSeparatesTokens }
{}

/// The place of a text changes the places of its tokens and nothing else.
pub fn tokens_keep_their_kind()
    ensures { TokensKeepTheirKind }
{}

/// A text of no bytes has no tokens.
pub fn empty_text_has_no_tokens()
    ensures { EmptyTextHasNoTokens }
{}

/// A spelled token is read as that token, if what follows does not go on with it.
pub fn spelled_token_is_read()
    ensures { SpelledTokenIsRead }
{}

/// White space is no token.
pub fn white_space_is_dropped()
    ensures { WhiteSpaceIsDropped }
{}

/// A number in canonical decimal is spelled.
pub fn decimal_is_spelled()
    ensures { DecimalIsSpelled }
{}

/// A token that was read has a spelling.
pub fn read_tokens_are_spelled()
    ensures { ReadTokensAreSpelled }
{}
