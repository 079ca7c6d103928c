//! The parser.
ghost use Rattle.std.specs.Prelude.{◌≡◌, ◌≤◌, ◌-◌, ℕ, Ok, Err, IfOk, IfErr, IfSome, IsErr};
ghost use Rattle.uvl_base.specs.Limits.{most_depth, most_nesting, most_rule_nodes, most_right_operands};
ghost use Rattle.uvl_base.specs.declared.fault.FaultKind.{FaultKind};
ghost use Rattle.uvl_base.specs.declared.place.Place.{Place};
ghost use Rattle.uvl_lexer.specs.TokenList.{IsTokenList};
ghost use Rattle.uvl_ast.specs.declared.file.File.{File};
ghost use Rattle.uvl_ast.specs.Depth.{depth_of};
ghost use Rattle.uvl_ast.specs.Members.{EachGroupHasMembers};
ghost use Rattle.uvl_ast.specs.Nesting.{EachValueNests};
ghost use Rattle.uvl_ast.specs.Nodes.{nodes_of};
ghost use Rattle.uvl_ast.specs.Operands.{right_operands};
ghost use Rattle.uvl_ast.specs.Rules.{EachRule};
ghost use Rattle.uvl_ast.specs.Texts.{EachTextIsQuotable};
ghost use Rattle.uvl_faults.specs.Named.{NoneNamed, IsFirstNamed};
ghost use Rattle.uvl_parser.specs.Parsing.{IsParsedAs, IsFaultAt, IsRefusedAt, OnFault};
ghost use Rattle.std.specs.Option.{unwrap_or};

use crate::fault::ParseFault;
use crate::file::file;
use crate::reading::Stop;
use std::alloc::Global;
use uvl_ast::File;
use uvl_base::FaultKind;
use uvl_faults::first_named;
use uvl_lexer::Token;
use uvl_profile::Candidate;

/// The file that the tokens spell. A list that spells none, or in which a fault with a name of its
/// own is met, is refused at the first token at which such a fault is met or with which no file
/// begins: for the named fault with the lowest number that is met there, or else for `Syntax`.
/// Nothing but want of memory refuses a list that spells a file without named faults. Features of
/// the file nest at most 64 deep, and each group has members. Lists and vectors nest at most 127
/// deep in the value of an attribute: the 128th bracket is the feature's own. Texts hold no single
/// quote and no line break. A rule has at most 8,192 nodes, and a node of it stands in the right
/// operands of at most 516 operators `&`, `|`, `=>` and `<=>`: of one of each outside, and in each
/// of 128 brackets and `!`.
pub fn parse(alloc: Global, tokens: &[Token]) -> Result<File, ParseFault>
    requires { IsTokenList tokens.now }
    ensures file { IfOk result (λ file. IsParsedAs tokens.now file) }
    ensures fault { IfErr result (λ fault. OnFault fault (λ place kind. IsRefusedAt tokens.now place kind)) }
    ensures never_refused { (file : File) → IsParsedAs tokens.now file
        → IfErr result (λ fault. fault ≡ ParseFault.OutOfMemory) }
    ensures never_read { (place : Place) (kind : FaultKind) → IsRefusedAt tokens.now place kind → IsErr result }
    ensures shallow { IfOk result (λ file. IfSome file.root (λ root. depth_of root ≤ most_depth)) }
    ensures members { IfOk result (λ file. IfSome file.root EachGroupHasMembers) }
    ensures nested { IfOk result (λ file. IfSome file.root (EachValueNests (most_nesting - 1))) }
    ensures texts { IfOk result (λ file. IfSome file.root EachTextIsQuotable) }
    ensures nodes { IfOk result (EachRule (λ rule. nodes_of rule ≤ most_rule_nodes)) }
    ensures grouped { IfOk result (EachRule (λ rule. right_operands rule ≤ most_right_operands)) }
{
    parse_tokens(alloc, tokens)
}

/// Parses a list of tokens: first the named faults are looked for, and then the tokens up to and
/// with the first are read.
fn parse_tokens(alloc: Global, tokens: &[Token]) -> Result<File, ParseFault>
    requires { IsTokenList tokens.now }
    ensures file { IfOk result (λ file. IsParsedAs tokens.now file) }
    ensures fault { IfErr result (λ fault. OnFault fault (λ place kind. IsRefusedAt tokens.now place kind)) }
{
    match first_named(alloc, tokens)? {
        Some(candidate) => Err(refusal(alloc, tokens, candidate)),
        None => read_unnamed(alloc, tokens),
    }
}

/// Reads tokens without named faults.
fn read_unnamed(alloc: Global, tokens: &[Token]) -> Result<File, ParseFault>
    requires list { IsTokenList tokens.now }
    requires unnamed { (k : ℕ) → NoneNamed tokens.now k }
    ensures file { IfOk result (λ file. IsParsedAs tokens.now file) }
    ensures fault { IfErr result (λ fault. OnFault fault (λ place kind. IsRefusedAt tokens.now place kind)) }
{
    match file(alloc, tokens) {
        Ok((file, _)) => Ok(file),
        Err(Stop::Stuck { left }) => {
            let index = tokens.len() - left;
            Err(refusal_at(tokens, index, FaultKind::Syntax))
        }
        Err(Stop::OutOfMemory) => Err(ParseFault::OutOfMemory),
    }
}

/// Why tokens are refused of which one has a named fault, or would if it could stand there.
fn refusal(alloc: Global, tokens: &[Token], candidate: Candidate) -> ParseFault
    requires list { IsTokenList tokens.now }
    requires first { IsFirstNamed tokens.now candidate }
    ensures { OnFault result (λ place kind. IsRefusedAt tokens.now place kind) }
{
    let last = candidate.index;
    match file(alloc, &tokens[..last + 1]) {
        Ok(_) => refusal_at(tokens, last, candidate.met.alive),
        Err(Stop::Stuck { left }) => {
            if left == 0 {
                refusal_at(tokens, last, candidate.met.alive)
            } else if left == 1 {
                refusal_at(tokens, last, dead_kind(candidate))
            } else {
                refusal_at(tokens, last + 1 - left, FaultKind::Syntax)
            }
        }
        Err(Stop::OutOfMemory) => ParseFault::OutOfMemory,
    }
}

/// The refusal at a token.
fn refusal_at(tokens: &[Token], index: usize, kind: FaultKind) -> ParseFault
    requires { IsFaultAt tokens.now index kind }
    ensures { OnFault result (λ place kind. IsRefusedAt tokens.now place kind) }
{
    ParseFault::At {
        place: tokens[index].place,
        kind,
    }
}

/// What is wrong at a token with which no file begins.
fn dead_kind(candidate: Candidate) -> FaultKind
    ensures { result ≡ unwrap_or candidate.met.dead FaultKind.Syntax }
{
    match candidate.met.dead {
        Some(kind) => kind,
        None => FaultKind::Syntax,
    }
}
