//! The commands of a script.
ghost use Rattle.std.specs.Prelude.{◌≡◌, chars, Some, IsSome, IfOk, IfErr};
ghost use Rattle.uvl_script.specs.Commands as spec;
ghost use Rattle.uvl_script.specs.Words.{words_of};
ghost use Rattle.uvl_script.specs.steps.Answers.{AnswersWords};

use crate::fault::LineFault;
use crate::words::{copy_words, is_blank};
use sqlite_items::Items;
use std::alloc::Global;
use uvl_base::Name;

/// Names, which contracts see as a list.
pub type Names = Items<Name>;

/// A command of a script.
#[derive(Debug, Drop)]
pub enum Command {
    /// `valid F..`: is the set of these features a product?
    Valid(Names),
    /// `void`: is there no product?
    Void,
    /// `dead`: which features are in no product?
    Dead,
    /// `core`: which features are in every product?
    Core,
    /// `falseopt`: which features seem optional, and are in every product that has their parent?
    FalseOpt,
}

/// What a command is called. Its words behind the name are another matter.
#[derive(Clone, Copy, Debug, PartialEq, Eq)]
pub(crate) enum CommandName {
    Valid,
    Void,
    Dead,
    Core,
    FalseOpt,
}

/// The command of this name with the words of `text` behind it.
pub(crate) fn command_of(alloc: Global, name: &str, text: &str) -> Result<Command, LineFault>
    requires { IsSome (words_of (chars text.now)) }
    ensures { AnswersWords text.now (spec.command_of (chars name.now)) result }
{
    match command_named(name) {
        Some(name) => command_with(alloc, name, text),
        None => Err(LineFault::UnknownCommand),
    }
}

/// The command that is called so, if there is one.
fn command_named(name: &str) -> Option<CommandName>
    ensures { result ≡ spec.command_named name.now }
{
    match name {
        "valid" => Some(CommandName::Valid),
        "void" => Some(CommandName::Void),
        "dead" => Some(CommandName::Dead),
        "core" => Some(CommandName::Core),
        "falseopt" => Some(CommandName::FalseOpt),
        _ => None,
    }
}

/// The command that is called so, with the words of `text` behind its name.
fn command_with(alloc: Global, name: CommandName, text: &str) -> Result<Command, LineFault>
    requires { IsSome (words_of (chars text.now)) }
    ensures { AnswersWords text.now (spec.command_with name) result }
{
    match name {
        CommandName::Valid => Ok(Command::Valid(any_names(alloc, text)?)),
        CommandName::Void => without_words(Command::Void, text),
        CommandName::Dead => without_words(Command::Dead, text),
        CommandName::Core => without_words(Command::Core, text),
        CommandName::FalseOpt => without_words(Command::FalseOpt, text),
    }
}

/// The words of a command that takes any names.
fn any_names(alloc: Global, text: &str) -> Result<Names, LineFault>
    requires { IsSome (words_of (chars text.now)) }
    ensures names { IfOk result (λ names. words_of (chars text.now) ≡ Some names) }
    ensures memory { IfErr result (λ fault. fault ≡ LineFault.OutOfMemory) }
{
    Ok(Names::from_vec(copy_words(alloc, text)?))
}

/// A command that takes no words.
fn without_words(command: Command, text: &str) -> Result<Command, LineFault>
    requires { IsSome (words_of (chars text.now)) }
    ensures { AnswersWords text.now (spec.without_words command) result }
{
    if is_blank(text) {
        Ok(command)
    } else {
        Err(LineFault::WrongArity)
    }
}
