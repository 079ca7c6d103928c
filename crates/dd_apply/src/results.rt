//! The cache of results: places that are looked at by the question alone, and a list behind them.
ghost use Rattle.std.specs.Prelude.{◌≡◌, ◌⊎◌, ◌≤◌, [], length, IfSome, OnOk, OnErr};
ghost use Rattle.std.specs.List.{Contains};
ghost use Rattle.dd_store.specs.declared.row.NodeNo.{NodeNo as NodeNumber};
ghost use Rattle.dd_apply.specs.declared.question.Question.{Question as Asked};

mod places;

use crate::question::Question;
use crate::results::places::{Kept, MOST_PLACES, Places};
use dd_store::NodeNo;
use lru::LruCache;
use std::alloc::Global;
use std::marker::Model;
use std::num::NonZeroUsize;

/// How many results are kept at most.
pub const MOST_RESULTS: u32 = 262_144;

/// How many of them the list has at most.
const MOST_LISTED: u32 = MOST_RESULTS - MOST_PLACES;

/// The latest results, each with its question. Contracts see them as a list of pairs. Which pairs are lost, by an older
/// one's place being taken or for want of memory, is hidden.
#[derive(Drop)]
pub(crate) struct Results {
    /// The places: one look tells whether a question's answer is there.
    places: Places,
    /// What was recalled from a place before another result took it, by its last use. It is made with its first result.
    list: Option<LruCache<Question, NodeNo>>,
}

impl Model for Results {
    ghost use Rattle.std.specs.Prelude.{List, ◌++◌};
    ghost use Rattle.dd_store.specs.declared.row.NodeNo.{NodeNo};
    ghost use Rattle.dd_apply.specs.declared.question.Question.{Question};
    ghost use Rattle.dd_apply.specs.Kept.{entries_of};

    ghost Value = { List (Question × NodeNo) };

    ghost view = { λ r. r.places ++ entries_of r.list };
}

impl Results {
    /// None.
    pub(crate) fn new(alloc: Global) -> Results
        ensures { result ≡ [] }
    {
        Results {
            places: Places::new(alloc),
            list: None,
        }
    }

    /// The answer to a question, where it is kept. The list is asked only where the question's place tells of it.
    #[inline(never)]
    pub(crate) fn recall(&self, question: Question) -> Option<NodeNo>
        ensures { IfSome result (λ r. Contains self.now (question, r)) }
    {
        let (answer, hides) = self.places.recall(question);
        if answer.is_none() && hides {
            self.recall_listed(question)
        } else {
            answer
        }
    }

    /// The answer to a question, where the list has it.
    #[cold]
    #[inline(never)]
    fn recall_listed(&self, question: Question) -> Option<NodeNo>
        ensures { IfSome result (λ r. Contains self.now (question, r)) }
    {
        let list = self.list.as_ref()?;
        list.peek(&question).copied()
    }

    /// Notes that an answer was of use.
    pub(crate) fn note(&mut self, question: Question)
        ensures { self.new ≡ self.old }
    {
        self.places.note(question);
    }

    /// Keeps an answer, where there is memory for it.
    #[inline(never)]
    pub(crate) fn keep(&mut self, alloc: Global, question: Question, answer: NodeNo)
        ensures { (p : Asked × NodeNumber) → Contains self.new p → Contains self.old p ⊎ (p ≡ (question, answer)) }
    {
        if let Some(displaced) = self.places.keep(alloc, question, answer) {
            self.list_one(alloc, displaced);
        }
    }

    /// Puts a result into the list, where there is memory for it.
    #[cold]
    #[inline(never)]
    fn list_one(&mut self, alloc: Global, displaced: Kept)
        ensures { (p : Asked × NodeNumber) → Contains self.new p →
            Contains self.old p ⊎ (p ≡ (displaced.question, displaced.answer)) }
    {
        self.make_list(alloc);
        if let Some(list) = self.list.as_mut() {
            let _kept = list.put(displaced.question, displaced.answer);
        }
    }

    /// Makes the list, where there is memory for it.
    fn make_list(&mut self, alloc: Global)
        ensures { self.new ≡ self.old }
    {
        if self.list.is_some() {
            return;
        }
        if let Some(most) = NonZeroUsize::new(MOST_LISTED as usize) {
            self.list = LruCache::new(alloc, most).ok();
        }
    }

    /// Lets all results go.
    #[cold]
    #[inline(never)]
    pub(crate) fn forget(&mut self)
        ensures { self.new ≡ [] }
    {
        self.places.forget();
        if let Some(list) = self.list.as_mut() {
            list.clear();
        }
    }
}
