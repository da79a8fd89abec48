// Laws over all texts of certificates, as functions whose contract is the law.
ghost use Rattle.cert_lines.specs.Laws.{
  NumeralIsDecimal,
  SignedNumeralIsDecimal,
  DigitIsNumeral,
  NumeralGrows,
  NumeralIsOfDigits,
  NumeralIsUnique,
  SignedNumeralIsUnique,
  LineIsUnique,
  LineIsCut,
  LineHasNoEnd,
  ReadingIsUnique,
  ReadIsNotBad,
  BadLineIsUnique,
  TextIsUnique,
  TextHasNoFault,
  FaultIsUnique,
  SpelledIsRead,
  ReadIsSpellable,
  ReadIsSpelled,
  FineIsSpellable,
  SpellableIsFine,
  ShoreIsFine,
  TextIsShort,
  SpellingIsShort,
};
ghost use Rattle.cert_lines.specs.Lengths.{LightTextsAreShort};

/// A number of 64 bits is spelled as std writes it.
pub fn numerals_are_decimals()
    ensures natural { NumeralIsDecimal }
    ensures whole { SignedNumeralIsDecimal }
{}

/// The spelling of a number of any size, digit by digit. No two numbers have the same spelling.
pub fn numerals_grow()
    ensures digit { DigitIsNumeral }
    ensures more { NumeralGrows }
    ensures digits { NumeralIsOfDigits }
    ensures unique { NumeralIsUnique }
    ensures signed { SignedNumeralIsUnique }
{}

/// No two lines have the same bytes. All bytes of a line are from 32 to 122, so none of them is an LF.
pub fn lines_are_unique()
    ensures unique { LineIsUnique }
    ensures whole { LineHasNoEnd }
{}

/// A line is cut at its blanks into its words.
pub fn lines_are_cut()
    ensures { LineIsCut }
{}

/// Bytes are read in at most one way: if all their lines are good, none is bad. Good lines say one thing, and there is
/// at most one first bad line with its fault.
pub fn readings_are_unique()
    ensures reading { ReadingIsUnique }
    ensures apart { ReadIsNotBad }
    ensures bad { BadLineIsUnique }
{}

/// Bytes are the text of at most one certificate, or have at most one first fault, and never both.
pub fn texts_are_unique()
    ensures text { TextIsUnique }
    ensures apart { TextHasNoFault }
    ensures fault { FaultIsUnique }
{}

/// If a certificate can be spelled, its spelling is a text of this certificate.
pub fn spelled_is_read()
    ensures { SpelledIsRead }
{}

/// A text is the spelling of its certificate, so there is one spelling.
pub fn read_is_spelled()
    ensures spellable { ReadIsSpellable }
    ensures spelled { ReadIsSpelled }
{}

/// A certificate can be spelled if its numbers are in range, its shores rise and are different, its weights rise and
/// are not 0, its pairs have the lesser edge first, its nodes are a tree in preorder, and it has the numbers of its
/// instance if a price set has a group.
pub fn fine_is_spellable()
    ensures { FineIsSpellable }
{}

/// A certificate that can be spelled has its numbers in range, different shores, and the nodes of one tree in preorder.
pub fn spellable_is_fine()
    ensures { SpellableIsFine }
{}

/// A shore that belongs to a valid instance can be spelled: it has at most 999 vertices.
pub fn shores_are_fine()
    ensures { ShoreIsFine }
{}

/// The text of a certificate has at most 268,435,456 bytes. So a reader with this limit refuses no certificate for its
/// length.
pub fn texts_are_short()
    ensures text { TextIsShort }
    ensures spelling { SpellingIsShort }
{}

/// The text of a light certificate has at most 64,000,000 bytes. A certificate is light if its plan has at most 600
/// tours, the edges of the groups of each price set, and six for each group, are at most 5,000 together, and no cut
/// is at a number above 999.
pub fn light_texts_are_short()
    ensures { LightTextsAreShort }
{}
