//! The top call.
ghost use Rattle.std.specs.Prelude.{◌≡◌, ◌≤◌, ℕ, List, map, IfOk, string_bytes};
ghost use Rattle.uvl_words.specs.Budgets.{least_budget, most_budget};
ghost use Rattle.uvl_run.specs.Exactly.{IsExact};
ghost use Rattle.uvl_run.specs.Outside.{seen};
ghost use Rattle.uvl_run.specs.Run.{Answers, NamesModel, fault_line};
ghost use Rattle.uvl_run.specs.steps.Loads.{IsLoaded};
ghost use Rattle.uvl_run.specs.steps.Says.{WritesLine};

use crate::Status;
use crate::laws::every_main_file_is_loaded_once;
use crate::load::load_model;
use crate::state::State;
use dd_store::Refusal;
use std::alloc::{AllocError, Global};
use uvl_base::ModelFault;
use uvl_imports::LoadFault;
use uvl_lines::{Ending, answer_lines};
use uvl_model::Model;
use uvl_outside::{Files, Sink, Source};
use uvl_resolve::flat_keeps_products;
use uvl_words::{Request, USAGE_LINE, read_words};

/// What is written where the budget is too small for the model.
const BUDGET_LINE: &str = "refused budget\n";

/// Reads the model that the words name, and answers the script line by line: whatever is told of
/// the files and of the input, and however the input is cut, the bytes that are written and the
/// status are those of a run. Each reply is written by one call of `put`, before more input is taken.
pub fn run<F: Files, S: Source, K: Sink>(
    alloc: Global,
    words: &[&str],
    files: &mut F,
    input: &mut S,
    out: &mut K,
) -> Status
    // What was written answers what was taken, as the status says, and the first fault ended the run.
    ensures answers { Answers (map (λ word. word.now) words.now) (F.told files.old)
        (seen (S.left input.old) (K.written out.old) (F.faults files.old) (S.faults input.old) (K.faults out.old))
        (seen (S.left input.new) (K.written out.new) (F.faults files.new) (S.faults input.new) (K.faults out.new))
        result }

    // Each status has its cause. Where a cause is, its status comes, unless a fault that was counted
    // or want of memory is in the way.
    ensures exactly { IsExact (map (λ word. word.now) words.now) (F.told files.old)
        (seen (S.left input.old) (K.written out.old) (F.faults files.old) (S.faults input.old) (K.faults out.old))
        (seen (S.left input.new) (K.written out.new) (F.faults files.new) (S.faults input.new) (K.faults out.new))
        result }
    ensures same_files { F.told files.new ≡ F.told files.old }
{
    // A law, which is a fact for the proof.
    every_main_file_is_loaded_once();
    answer_words(alloc, words, files, input, out)
}

/// One way through a run for each thing that the words may ask for. `--demo N` asks for nothing yet:
/// such words are refused.
fn answer_words<F: Files, S: Source, K: Sink>(
    alloc: Global,
    words: &[&str],
    files: &mut F,
    input: &mut S,
    out: &mut K,
) -> Status
    ensures answers { Answers (map (λ word. word.now) words.now) (F.told files.old)
        (seen (S.left input.old) (K.written out.old) (F.faults files.old) (S.faults input.old) (K.faults out.old))
        (seen (S.left input.new) (K.written out.new) (F.faults files.new) (S.faults input.new) (K.faults out.new))
        result }
    ensures same_files { F.told files.new ≡ F.told files.old }
{
    match read_words(alloc, words) {
        Ok(Some(Request::Model { path, budget })) => {
            answer_model(alloc, path, budget, files, input, out)
        }
        Ok(None) => write_line(alloc, USAGE_LINE, Status::Usage, out),
        Err(_) => Status::from(Ending::NoMemory),
    }
}

/// Loads the model whose main file is at the path, and answers the script by it.
fn answer_model<F: Files, S: Source, K: Sink>(
    alloc: Global,
    path: &str,
    budget: u32,
    files: &mut F,
    input: &mut S,
    out: &mut K,
) -> Status
    requires least { least_budget ≤ budget }
    requires most { budget ≤ most_budget }
    ensures answers { (words : List (List ℕ)) → NamesModel words path.now budget → Answers words (F.told files.old)
        (seen (S.left input.old) (K.written out.old) (F.faults files.old) (S.faults input.old) (K.faults out.old))
        (seen (S.left input.new) (K.written out.new) (F.faults files.new) (S.faults input.new) (K.faults out.new))
        result }
    ensures same_files { F.told files.new ≡ F.told files.old }
{
    match load_model(alloc, files, path) {
        Ok(model) => answer_by_model(alloc, model, budget, files, input, out),
        Err(LoadFault::Model(fault)) => report(alloc, &fault, out),
        Err(LoadFault::ReadFault) => Status::from(Ending::FetchFailed),
        Err(LoadFault::OutOfMemory) => Status::from(Ending::NoMemory),
    }
}

/// Compiles a model, and answers the script by it. Where the budget is too small for that, the one line says so.
fn answer_by_model<F: Files, S: Source, K: Sink>(
    alloc: Global,
    model: Model,
    budget: u32,
    files: &mut F,
    input: &mut S,
    out: &mut K,
) -> Status
    requires least { least_budget ≤ budget }
    requires most { budget ≤ most_budget }
    ensures answers { (words : List (List ℕ)) (path : List ℕ) → NamesModel words path budget →
        IsLoaded (F.told files.old) path model → Answers words (F.told files.old)
        (seen (S.left input.old) (K.written out.old) (F.faults files.old) (S.faults input.old) (K.faults out.old))
        (seen (S.left input.new) (K.written out.new) (F.faults files.new) (S.faults input.new) (K.faults out.new))
        result }
    ensures same_files { F.told files.new ≡ F.told files.old }
{
    // A law, which is a fact for the proof.
    flat_keeps_products();
    match State::new(alloc, model, budget) {
        Ok(mut state) => Status::from(answer_lines(alloc, &mut state, files, input, out)),
        Err(Refusal::OverBudget { .. }) => write_line(alloc, BUDGET_LINE, Status::OverBudget, out),
        Err(Refusal::OutOfMemory) => Status::from(Ending::NoMemory),
    }
}

/// Writes the fault line of a fault.
fn report<K: Sink>(alloc: Global, fault: &ModelFault, out: &mut K) -> Status
    ensures { WritesLine (fault_line fault.now) Status.Model
        (K.written out.old) (K.written out.new) (K.faults out.old) (K.faults out.new) result }
{
    match line_of(alloc, fault) {
        Ok(line) => write_line(alloc, line.as_str(), Status::Model, out),
        Err(_) => Status::from(Ending::NoMemory),
    }
}

/// The fault line of a fault.
#[tactic(auto, unfolding(crate::specs::Run::fault_line))]
fn line_of(alloc: Global, fault: &ModelFault) -> Result<String, AllocError>
    ensures { IfOk result (λ line. string_bytes line ≡ fault_line fault.now) }
{
    format!(in alloc; "fault {fault}\n")
}

/// Writes the one line of a run, which then has this status.
fn write_line<K: Sink>(alloc: Global, line: &str, whole: Status, out: &mut K) -> Status
    ensures { WritesLine line.now whole
        (K.written out.old) (K.written out.new) (K.faults out.old) (K.faults out.new) result }
{
    match out.put(alloc, line.as_bytes()) {
        Ok(()) => whole,
        Err(fault) => Status::from(Ending::from(fault)),
    }
}
