//! Laws of the definitions, each the contract of a function that makes no call.

ghost use Rattle.rustc_lexer.specs.Laws.{
  LexemeIsLocal,
  FrontIsKept,
  TokensGoOn,
  BoundariesCut,
  TokensJoin,
  EachTakesOne,
  EachHasLength,
  LengthsSum,
  IdentsAreIdents,
  StringsClose,
  RawStringsClose,
  CommentsNest,
  NumbersAreRead,
  NumbersHaveParts,
  OneCharacterCloses,
  CharactersEnd,
  CharactersStayOpen,
  LifetimesEnd,
  QuotedNamesAreCharacters,
  RawLifetimesEnd,
};

/// States that the token at a position does not depend on the text past the two characters after
/// it.
pub fn lexeme_is_local()
    ensures { LexemeIsLocal }
{}

/// States that the first tokens of a text, as far as they end at least two characters before the
/// first difference from another text, are the first tokens of the other text.
pub fn front_is_kept()
    ensures { FrontIsKept }
{}

/// States that the tokens of a text are its first token and the tokens of the remaining text.
pub fn tokens_go_on()
    ensures { TokensGoOn }
{}

/// States that lexing from the end of a token yields the tokens after it.
pub fn boundaries_cut()
    ensures { BoundariesCut }
{}

/// States that the concatenation of the texts of the tokens is the text.
pub fn tokens_join()
    ensures { TokensJoin }
{}

/// States that each token has at least one character and a length of at least one byte, and that
/// the lengths sum to the length of the text.
pub fn lengths_sum()
    ensures characters { EachTakesOne }
    ensures bytes { EachHasLength }
    ensures whole { LengthsSum }
{}

/// States that `is_ident` is `true` for the text of each token of kind `Ident`.
pub fn idents_are_idents()
    ensures { IdentsAreIdents }
{}

/// States that a string ends at the first quote with an even run of `\` before it inside the
/// string, and a raw string at the first quote with its hashes after it. An unterminated string or
/// raw string runs to the end of the text.
pub fn strings_close()
    ensures plain { StringsClose }
    ensures raw { RawStringsClose }
{}

/// States that a block comment is terminated if and only if the comments inside it nest, and that
/// it ends there.
pub fn comments_nest()
    ensures { CommentsNest }
{}

/// States that a number is lexed by its parts: an optional base prefix, digits, an optional dot
/// with digits, an optional exponent. Each part is as long as possible; a number has no other part.
pub fn numbers_have_parts()
    ensures read { NumbersAreRead }
    ensures parts { NumbersHaveParts }
{}

/// States that a character literal ends with the `'` after its only character; otherwise at
/// the first unescaped end: with a `'`, or unterminated before a `/` or before a line feed that no
/// `'` follows. If there is none, it is unterminated and runs to the end of the text.
pub fn characters_end()
    ensures one { OneCharacterCloses }
    ensures first { CharactersEnd }
    ensures open { CharactersStayOpen }
{}

/// States that a lifetime is a `'` and a word, which may start with a digit or with `r#`, and ends
/// where that word does. Without `r#` and directly before a `'`, it is a character literal.
pub fn lifetimes_end()
    ensures plain { LifetimesEnd }
    ensures quoted { QuotedNamesAreCharacters }
    ensures raw { RawLifetimesEnd }
{}
