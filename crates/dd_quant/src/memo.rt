//! What is remembered of nodes, by their numbers.
ghost use Rattle.std.specs.Prelude.{◌≡◌, ◌⊎◌, [], IsTrue};
ghost use Rattle.dd_store.specs.Table.{IsVariable};
ghost use Rattle.dd_apply.specs.Room.{HasRoomFor};
ghost use Rattle.dd_quant.specs.steps.Remembered.{answer_of, IsRemembered};

use dd_apply::Kernel;
use dd_store::{NodeNo, Row};

/// The answer for a node, where it is remembered.
pub(crate) fn recall(answers: &[Option<NodeNo>], node: NodeNo) -> Option<NodeNo>
    ensures { result ≡ answer_of answers.now node.0 }
{
    match answers.get(node.0 as usize) {
        Some(answer) => *answer,
        None => None,
    }
}

/// Remembers the answer for a node, where there is memory for it.
pub(crate) fn remember(answers: &mut Vec<Option<NodeNo>>, node: NodeNo, answer: NodeNo)
    ensures { IsRemembered answers.old.items answers.new.items node.0 answer.0 }
{
    let at = node.0 as usize;
    make_room(answers, at);
    if at < answers.len() {
        answers[at] = Some(answer);
    }
}

ghost use Rattle.std.specs.Prelude.{ℕ, ◌<◌, ◌^◌};

/// Makes room for a number, where there is memory for it.
fn make_room(answers: &mut Vec<Option<NodeNo>>, at: usize)
    requires { at < 2 ^ 32 }
    ensures { (n : ℕ) → answer_of answers.new.items n ≡ answer_of answers.old.items n }
{
    if answers.len() <= at {
        let _room = answers.resize(at + 1, None);
    }
}

/// Forgets all answers where a node with this row could be had only behind a collection, which may free what they stand
/// on.
pub(crate) fn forget_unless_room(kernel: &Kernel, answers: &mut Vec<Option<NodeNo>>, row: Row)
    requires { IsVariable kernel.now row.var.0 }
    ensures { (HasRoomFor kernel.now row × (answers.new.items ≡ answers.old.items)) ⊎ (answers.new.items ≡ []) }
{
    if !has_room_for(kernel, row) {
        answers.clear();
    }
}

/// Whether a node with this row can be had without a collection: its ends are one, there is room, or it is there.
fn has_room_for(kernel: &Kernel, row: Row) -> bool
    requires { IsVariable kernel.now row.var.0 }
    ensures { IsTrue result → HasRoomFor kernel.now row }
{
    row.low == row.high || kernel.nodes() < kernel.budget() || kernel.find(row).is_some()
}
