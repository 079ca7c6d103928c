//! Distinct texts, numbered from 0 in the order of their adding, with a look-up by text.
ghost use Rattle.std.specs.Prelude.{◌≡◌, [], ◌∷◌, ◌++◌, length, IfOk, OnErr, is_some, not, string_bytes, if◌then◌else◌};
ghost use Rattle.uvl_imports.specs.Texts.{has, place_of};

use indexmap::IndexSet;
use std::alloc::Global;
use std::marker::Model;
use uvl_base::OutOfMemory;

/// Distinct texts, numbered from 0 in the order of their adding. Contracts see the list of the texts,
/// each as its bytes.
#[derive(Debug, Drop)]
pub(crate) struct TextIndex {
    texts: IndexSet<String>,
}

impl Model for TextIndex {
    ghost use Rattle.std.specs.Prelude.{List, ℕ, map, string_bytes};

    ghost Value = { List (List ℕ) };

    ghost view = { λ i. map (λ text. string_bytes text) i.texts.keys };
}

impl TextIndex {
    /// No texts. It takes no memory before the first is added.
    pub(crate) fn new(alloc: Global) -> TextIndex
        ensures { result ≡ [] }
    {
        TextIndex {
            texts: IndexSet::new(alloc),
        }
    }

    /// How many texts there are.
    pub(crate) fn len(&self) -> usize
        ensures { result ≡ length self.now }
    {
        self.texts.len()
    }

    /// Adds a text behind the others, unless it is there already. The answer says whether it was new.
    pub(crate) fn add(&mut self, text: String) -> Result<bool, OutOfMemory>
        ensures added { IfOk result
            (λ new. self.new ≡ (if new then self.old ++ string_bytes text ∷ [] else self.old)) }
        ensures known { IfOk result (λ new. new ≡ not (has self.old (string_bytes text))) }
        ensures err { OnErr result (self.new ≡ self.old) }
    {
        if self.texts.contains(text.as_str()) {
            return Ok(false);
        }
        self.texts.insert(text)?;
        Ok(true)
    }

    /// The number of the text.
    pub(crate) fn find(&self, text: &str) -> Option<usize>
        ensures place { result ≡ place_of text.now self.now }
        ensures found { is_some result ≡ has self.now text.now }
    {
        self.texts.get_index_of(text)
    }
}
