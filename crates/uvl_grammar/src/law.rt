//! The laws of the grammar.
ghost use Rattle.uvl_grammar.specs.Law.{EachListSpellsOneFile, SpelledTextsAreQuotable};

/// No list of tokens spells two files.
pub fn every_token_list_spells_one_file()
    ensures { EachListSpellsOneFile }
{}

/// The texts of a file that tokens spell hold no single quote and no line break.
pub fn spelled_texts_are_quotable()
    ensures { SpelledTextsAreQuotable }
{}
