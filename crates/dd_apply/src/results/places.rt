//! The places of results: each question has one, whose older result goes where another one is kept.
ghost use Rattle.std.specs.Prelude.{◌≡◌, ◌⊎◌, ◌<◌, ◌≤◌, [], length, IfSome};
ghost use Rattle.std.specs.List.{Contains};
ghost use Rattle.dd_store.specs.declared.row.NodeNo.{NodeNo as NodeNumber};
ghost use Rattle.dd_apply.specs.declared.question.Question.{Question as Asked};

use crate::operation::Operation;
use crate::question::Question;
use dd_store::NodeNo;
use std::alloc::Global;
use std::cmp::max;
use std::marker::Model;
use std::mem::size_of;

/// How many places there are at most.
pub(crate) const MOST_PLACES: u32 = 245_760;

/// How many there are with the first result. Twice as many, six times, are the most.
const LEAST_PLACES: u32 = 3_840;

/// How often a result has to be of use for the list.
const LISTED_USES: u8 = 4;

/// A result in its place.
#[derive(Clone, Copy, Debug)]
pub(crate) struct Kept {
    pub question: Question,
    pub answer: NodeNo,
    /// How often it was of use, counted no further than 255.
    pub uses: u8,
    /// Whether the one whose place it took went into the list.
    pub hides: bool,
}

/// A place takes at most 32 bytes.
const _: () = prove!(size_of::<Option<Kept>>() <= 32);

/// The places of results. Contracts see the pairs of question and answer in them.
#[derive(Drop)]
pub(crate) struct Places {
    /// What is kept. A question's place is what is left of its hash when that is divided by how many there are: where
    /// these are doubled, half of the results are in their places still, and the others are lost.
    places: Vec<Option<Kept>>,
    /// How many results were put into the places since these became so many.
    puts: u32,
}

impl Model for Places {
    ghost use Rattle.std.specs.Prelude.{List};
    ghost use Rattle.dd_store.specs.declared.row.NodeNo.{NodeNo};
    ghost use Rattle.dd_apply.specs.declared.question.Question.{Question};
    ghost use Rattle.dd_apply.specs.Kept.{pairs_in};

    ghost Value = { List (Question × NodeNo) };

    ghost view = { λ p. pairs_in p.places.items };
}

impl Places {
    /// None.
    pub(crate) fn new(alloc: Global) -> Places
        ensures { result ≡ [] }
    {
        Places {
            places: Vec::new(alloc),
            puts: 0,
        }
    }

    /// What stands in a question's place.
    fn at(&self, question: Question) -> Option<Kept>
        ensures { IfSome result (λ k. Contains self.now (k.question, k.answer)) }
    {
        if self.places.is_empty() {
            return None;
        }
        self.places[place_of(question, self.places.len())]
    }

    /// The answer to a question, where it is in its place; and whether the result that stood there before went into
    /// the list.
    pub(crate) fn recall(&self, question: Question) -> (Option<NodeNo>, bool)
        ensures { IfSome result.0 (λ r. Contains self.now (question, r)) }
    {
        match self.at(question) {
            Some(kept) if kept.question == question => (Some(kept.answer), kept.hides),
            Some(kept) => (None, kept.hides),
            None => (None, false),
        }
    }

    /// Notes that the answer in a question's place was of use.
    pub(crate) fn note(&mut self, question: Question)
        ensures { self.new ≡ self.old }
    {
        if self.places.is_empty() {
            return;
        }
        let place = place_of(question, self.places.len());
        if let Some(kept) = self.places[place] {
            let uses = kept.uses.saturating_add(1);
            self.places[place] = Some(Kept { uses, ..kept });
        }
    }

    /// Puts an answer into its question's place, where there is memory for places, and answers what was of use there
    /// before.
    pub(crate) fn keep(&mut self, alloc: Global, question: Question, answer: NodeNo) -> Option<Kept>
        ensures kept { (p : Asked × NodeNumber) → Contains self.new p → Contains self.old p ⊎ (p ≡ (question, answer)) }
        ensures displaced { IfSome result (λ k. Contains self.old (k.question, k.answer)) }
    {
        let _alloc = alloc;
        self.widen();
        if self.places.is_empty() {
            return None;
        }
        let place = place_of(question, self.places.len());
        let displaced = used_one(self.places[place]);
        self.places[place] = Some(Kept {
            question,
            answer,
            uses: 0,
            hides: displaced.is_some(),
        });
        self.puts = self.puts.saturating_add(1);
        displaced
    }

    /// Twice as many places where as many results were put into them, while there is memory and these are not the most.
    fn widen(&mut self)
        ensures { self.new ≡ self.old }
    {
        let size = self.places.len();
        if size >= MOST_PLACES as usize || (self.puts as usize) < size {
            return;
        }
        let wider = max(2 * size, LEAST_PLACES as usize);
        let _widened = self.places.resize(wider, None);
        self.puts = 0;
    }

    /// Empties all places.
    pub(crate) fn forget(&mut self)
        ensures { self.new ≡ [] }
    {
        self.places.clear();
        self.puts = 0;
    }
}

/// The result where it was of use.
fn used_one(kept: Option<Kept>) -> Option<Kept>
    ensures { IfSome result (λ k. kept ≡ Some k) }
{
    match kept {
        Some(one) => if one.uses >= LISTED_USES { kept } else { None },
        None => None,
    }
}

/// The place of a question among so many.
fn place_of(question: Question, size: usize) -> usize
    requires { 0 < size }
    ensures { result < size }
{
    hash_of(question) as usize % size
}

/// A hash of a question: the numbers in it but the first one are multiplied by large odd ones. So where the first one alone
/// differs by little, as of nodes that were made one after another, the places are near each other in memory.
fn hash_of(question: Question) -> u32 {
    match question {
        Question::Binary(Operation::And, a, b) => mixed(a, b, 0),
        Question::Binary(Operation::Or, a, b) => mixed(a, b, 1),
        Question::Binary(Operation::Xor, a, b) => mixed(a, b, 2),
        Question::Implies(a, b) => mixed(a, b, 3),
        Question::Ite(c, a, b) => mixed(c, a, b.0),
    }
}

/// The hash of three numbers.
fn mixed(a: NodeNo, b: NodeNo, c: u32) -> u32 {
    let second = b.0.wrapping_mul(2_654_435_761);
    let third = c.wrapping_mul(2_246_822_519);
    a.0.wrapping_add(second).wrapping_add(third)
}
