//! Whole files: `file = namespace? include? imports? features? constraints? Finish`.
ghost use Rattle.std.specs.Prelude.{◌≡◌, Ok, Err};
ghost use Rattle.uvl_parser.specs.steps.Gives.{Gives};
ghost use Rattle.uvl_grammar.specs.steps.File.{file};

use crate::include_lines::levels;
use crate::layout::Layout;
use crate::reading::Stop;
use crate::sections::{constraints, features, imports, namespace};
use crate::tokens::token;
use std::alloc::Global;
use uvl_ast::File;
use uvl_lexer::Token;

/// Reads a file.
#[tactic(auto, unfolding(uvl_grammar::specs::steps::File::file, uvl_grammar::specs::steps::Reading::bind, uvl_grammar::specs::steps::Reading::done))]
pub(crate) fn file(alloc: Global, tokens: &[Token]) -> Result<(File, &[Token]), Stop>
    ensures { Gives (λ r. (r.0, r.1.now)) result (file tokens.now) }
{
    let (namespace, rest) = namespace(alloc, tokens)?;
    let (levels, rest) = levels(alloc, rest)?;
    let (imports, rest) = imports(alloc, rest)?;
    let (root, rest) = features(alloc, rest)?;
    let (rules, rest) = constraints(alloc, rest)?;
    let (finish, rest) = token(rest, Layout::Finish)?;
    Ok((
        File {
            namespace,
            levels,
            imports,
            root,
            rules,
            finish,
        },
        rest,
    ))
}
