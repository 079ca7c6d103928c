//! What the import lines of a file offer: files by their qualifiers.
ghost use Rattle.std.specs.Prelude.{◌≡◌, ℕ, List, length, chars, string_bytes, option_copied, IfOk, OnOk};
ghost use Rattle.std.specs.Option.{option_or};
ghost use Rattle.std.specs.Str.{bytes_eq};
ghost use Rattle.uvl_placing.specs.Names.{qualifier_of};
ghost use Rattle.uvl_scope.specs.Firsts.{beside, when};
ghost use Rattle.uvl_scope.specs.Brought.{scope_at, with_root};
ghost use Rattle.uvl_scope.specs.steps.Offers.{Calls};

use crate::names::NameIndex;
use crate::scope::Scope;
use crate::spelling::dotted;
use sqlite_items::Items;
use std::alloc::Global;
use uvl_ast::Import;
use uvl_base::{Name, OutOfMemory};

/// The qualifiers of a file's import lines, and for each the position of the file that it calls. Of lines
/// with one qualifier the first counts.
#[derive(Debug, Drop)]
pub(crate) struct Imports {
    pub(crate) qualifiers: NameIndex,
    pub(crate) targets: Items<u32>,
}

impl Imports {
    /// What lines with these targets offer.
    pub(crate) fn of(
        alloc: Global,
        lines: &[Import],
        targets: &[u32],
    ) -> Result<Imports, OutOfMemory>
        ensures { IfOk result (λ imports. Calls imports lines.now targets.now) }
    {
        let mut imports = Imports {
            qualifiers: NameIndex::new(alloc),
            targets: Items::new(alloc),
        };
        for (number, line) in lines.iter().enumerate() {
            let Some(target) = targets.get(number) else {
                return Ok(imports);
            };
            imports.add(alloc, line, *target)?;
        }
        Ok(imports)
    }

    /// Adds what a line with this target offers, unless a line in front has its qualifier.
    fn add(&mut self, alloc: Global, line: &Import, target: u32) -> Result<(), OutOfMemory>
        requires { length self.old.qualifiers ≡ length self.old.targets }
        ensures even { OnOk result (length self.new.qualifiers ≡ length self.new.targets) }
        ensures offers { OnOk result ((qualifier : List ℕ) → beside qualifier self.new.qualifiers self.new.targets
            ≡ option_or (beside qualifier self.old.qualifiers self.old.targets)
            (when (bytes_eq qualifier (qualifier_of line.now)) target)) }
    {
        let qualifier = qualifier_of(alloc, line)?;
        if !self.qualifiers.add(&qualifier)? {
            return Ok(());
        }
        self.targets.push(target)?;
        Ok(())
    }

    /// The position of the file that is called so.
    fn target(&self, qualifier: &str) -> Option<u32>
        ensures { result ≡ beside (chars qualifier.now) self.now.qualifiers self.now.targets }
    {
        let number = self.qualifiers.find(qualifier)?;
        self.targets.get(number).copied()
    }

    /// The scope of the file that a reference places, whose last name is its root's, and whose other names
    /// joined by dots are this qualifier.
    pub(crate) fn placed<'s, 'a>(
        &self,
        scopes: &'s [Scope<'a>],
        qualifier: &str,
        root: &Name,
    ) -> Option<&'s Scope<'a>>
        ensures { option_copied result ≡ with_root root.now (scope_at scopes.now
            (beside (chars qualifier.now) self.now.qualifiers self.now.targets)) }
    {
        let target = self.target(qualifier)?;
        let scope = scopes.get(target as usize)?;
        if scope.names.is_first(root.text()) {
            Some(scope)
        } else {
            None
        }
    }
}

/// What a line calls the file that it names.
fn qualifier_of(alloc: Global, line: &Import) -> Result<String, OutOfMemory>
    ensures { IfOk result (λ qualifier. chars (string_bytes qualifier) ≡ qualifier_of line.now) }
{
    match &line.alias {
        Some(alias) => dotted(alloc, alias.parts.as_slice()),
        None => dotted(alloc, line.path.parts.as_slice()),
    }
}
