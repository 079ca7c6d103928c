//! The laws of parsing.
ghost use Rattle.uvl_parser.specs.Limits.{FilesWithinLimitsAreParsed, ParsedFilesKeepLimits};
ghost use Rattle.uvl_parser.specs.Parsing.{EachTokenListIsParsedOnce};

/// Each list of tokens is parsed as one file or refused at one place for one kind of fault, and never both.
pub fn every_token_list_is_parsed_once()
    ensures { EachTokenListIsParsedOnce }
{}

/// No file is refused for a limit that its tree keeps, and none that breaks one is accepted: tokens that
/// spell a file are parsed as it exactly where its features nest at most 64 deep, its rules have at most
/// 8,192 nodes each, and no fault is met by the tokens alone, as of a bracket that nests too deep.
pub fn files_are_parsed_exactly_within_the_limits()
    ensures parsed { FilesWithinLimitsAreParsed }
    ensures kept { ParsedFilesKeepLimits }
{}
