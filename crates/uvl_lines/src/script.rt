//! The reading of a script, whose lines are answered as they come.
ghost use Rattle.std.specs.Prelude.{◌≡◌, ◌≤◌, ◌++◌, ◌∷◌, [], ℕ, List, length, IfOk, IsFalse, OnOk, vec_len};
ghost use Rattle.uvl_outside.specs.Faults.{Counts};
ghost use Rattle.uvl_lines.specs.Endings.{AnswersLines, is_input_failed, is_fetch_failed, is_write_failed};
ghost use Rattle.uvl_lines.specs.Lines.{ended_lines_from, open_line_from, last_line};
ghost use Rattle.uvl_lines.specs.steps.Answering.{Answering, ending_of};
ghost use Rattle.uvl_lines.specs.steps.Kept.{kept, most_kept_bytes};

use crate::first_line::split_line;
use crate::reply::answer_line;
use crate::{Answerer, Ending};
use std::alloc::{AllocError, Global};
use uvl_base::{MOST_LINE_BYTES, MOST_SCRIPT_BYTES};
use uvl_outside::{Failed, Files, Sink, Source};

/// The most bytes that are taken at once.
const PIECE_BYTES: usize = 65_536;

/// The most bytes that are kept of a line which hasn't ended. A line that has more is too long,
/// whatever they are: one of them may be a CR in front of the LF.
const MOST_KEPT_BYTES: usize = MOST_LINE_BYTES + 2;

/// A script that is being read.
#[derive(Drop)]
struct Script {
    alloc: Global,
    /// What is kept of the line that has begun, where it began in an earlier piece.
    line: Vec<u8>,
    /// Room for the reply to a line, used again from line to line.
    reply: Vec<u8>,
    ghost short: { vec_len line ≤ most_kept_bytes },
}

impl Script {
    /// A script of which nothing has come.
    fn new(alloc: Global) -> Script
        ensures { result.line.items ≡ [] }
    {
        Script {
            alloc,
            line: Vec::new(alloc),
            reply: Vec::new(alloc),
        }
    }

    /// Answers the lines of the input as they come, to its end, in pieces that fit the buffer.
    fn read<A: Answerer, F: Files, S: Source, K: Sink>(
        &mut self,
        buffer: &mut [u8],
        answerer: &mut A,
        files: &mut F,
        input: &mut S,
        out: &mut K,
    ) -> Result<(), Ending>
        requires room { PIECE_BYTES ≤ length buffer.old }
        requires fresh { self.old.line.items ≡ [] }
        ensures answers { AnswersLines (A.replies (F.told files.old)) A.fetches answerer.old
            (S.left input.old) (S.left input.new) (K.written out.old) (K.written out.new) (ending_of result) }
        ensures same_files { F.told files.new ≡ F.told files.old }
        ensures input_counted { Counts (S.faults input.old) (S.faults input.new) (is_input_failed (ending_of result)) }
        ensures files_counted { Counts (F.faults files.old) (F.faults files.new) (is_fetch_failed (ending_of result)) }
        ensures out_counted { Counts (K.faults out.old) (K.faults out.new) (is_write_failed (ending_of result)) }
    {
        let mut count = 0;
        loop {
            // Where as many bytes were taken as a script may have, only another tells whether it has more.
            let room = PIECE_BYTES.min(MOST_SCRIPT_BYTES - count).max(1);
            let piece = &mut buffer[..room];
            match input.take(piece) {
                Err(Failed) => return Err(Ending::InputFailed),
                Ok(0) => return self.finish(answerer, files, out),
                Ok(taken) => {
                    if count == MOST_SCRIPT_BYTES {
                        return Err(Ending::TooMuch);
                    }
                    self.answer_piece(&piece[..taken], answerer, files, out)?;
                    count += taken;
                }
            }
        }
    }

    /// Answers the lines that end in a piece, and keeps the front of the next.
    fn answer_piece<A: Answerer, F: Files, K: Sink>(
        &mut self,
        piece: &[u8],
        answerer: &mut A,
        files: &mut F,
        out: &mut K,
    ) -> Result<(), Ending>
        ensures begun { OnOk result ((begun : List ℕ) → self.old.line.items ≡ kept begun →
            self.new.line.items ≡ kept (open_line_from begun piece.now)) }
        ensures answered { (begun : List ℕ) → self.old.line.items ≡ kept begun →
            Answering (A.replies (F.told files.old)) A.fetches answerer.old answerer.new
            (K.written out.old) (K.written out.new) (ended_lines_from begun piece.now) result }
        ensures same_files { F.told files.new ≡ F.told files.old }
        ensures files_counted { Counts (F.faults files.old) (F.faults files.new) (is_fetch_failed (ending_of result)) }
        ensures out_counted { Counts (K.faults out.old) (K.faults out.new) (is_write_failed (ending_of result)) }
        ensures no_input { IsFalse (is_input_failed (ending_of result)) }
    {
        let mut rest = piece;
        while let Some((front, behind)) = split_line(rest) {
            self.end_line(front, answerer, files, out)?;
            rest = behind;
        }
        self.keep(rest)?;
        Ok(())
    }

    /// Keeps these bytes of the line too, as far as they matter.
    fn keep(&mut self, bytes: &[u8]) -> Result<(), AllocError>
        ensures { OnOk result ((begun : List ℕ) → self.old.line.items ≡ kept begun →
            self.new.line.items ≡ kept (begun ++ bytes.now)) }
    {
        let room = MOST_KEPT_BYTES - self.line.len();
        self.line
            .extend_from_slice(&bytes[..room.min(bytes.len())])?;
        Ok(())
    }

    /// Answers the line that has begun, which ends with these bytes.
    fn end_line<A: Answerer, F: Files, K: Sink>(
        &mut self,
        end: &[u8],
        answerer: &mut A,
        files: &mut F,
        out: &mut K,
    ) -> Result<(), Ending>
        ensures begun { OnOk result (self.new.line.items ≡ []) }
        ensures answered { (begun : List ℕ) → self.old.line.items ≡ kept begun →
            Answering (A.replies (F.told files.old)) A.fetches answerer.old answerer.new
            (K.written out.old) (K.written out.new) ((begun ++ end.now) ∷ []) result }
        ensures same_files { F.told files.new ≡ F.told files.old }
        ensures files_counted { Counts (F.faults files.old) (F.faults files.new) (is_fetch_failed (ending_of result)) }
        ensures out_counted { Counts (K.faults out.old) (K.faults out.new) (is_write_failed (ending_of result)) }
        ensures no_input { IsFalse (is_input_failed (ending_of result)) }
    {
        if self.line.is_empty() {
            return answer_line(self.alloc, end, answerer, files, &mut self.reply, out);
        }
        self.keep(end)?;
        answer_line(
            self.alloc,
            &self.line,
            answerer,
            files,
            &mut self.reply,
            out,
        )?;
        self.line.clear();
        Ok(())
    }

    /// Answers the bytes behind the last line end, where there are any.
    fn finish<A: Answerer, F: Files, K: Sink>(
        &mut self,
        answerer: &mut A,
        files: &mut F,
        out: &mut K,
    ) -> Result<(), Ending>
        ensures answered { (begun : List ℕ) → self.old.line.items ≡ kept begun →
            Answering (A.replies (F.told files.old)) A.fetches answerer.old answerer.new
            (K.written out.old) (K.written out.new) (last_line begun) result }
        ensures same_files { F.told files.new ≡ F.told files.old }
        ensures files_counted { Counts (F.faults files.old) (F.faults files.new) (is_fetch_failed (ending_of result)) }
        ensures out_counted { Counts (K.faults out.old) (K.faults out.new) (is_write_failed (ending_of result)) }
        ensures no_input { IsFalse (is_input_failed (ending_of result)) }
    {
        if self.line.is_empty() {
            return Ok(());
        }
        answer_line(
            self.alloc,
            &self.line,
            answerer,
            files,
            &mut self.reply,
            out,
        )
    }
}

/// Answers the lines of the input as they come, to its end or to the first fault, however the input
/// is cut into pieces. Each reply is written by one call of `put`, before more input is taken; a
/// line without a reply writes nothing.
pub fn answer_lines<A: Answerer, F: Files, S: Source, K: Sink>(
    alloc: Global,
    answerer: &mut A,
    files: &mut F,
    input: &mut S,
    out: &mut K,
) -> Ending
    // What was written answers what was taken, as the ending says.
    ensures answers { AnswersLines (A.replies (F.told files.old)) A.fetches answerer.old
        (S.left input.old) (S.left input.new) (K.written out.old) (K.written out.new) result }

    // The first fault ends the run, so no count rose where the ending is no fault of its object.
    ensures input_counted { Counts (S.faults input.old) (S.faults input.new) (is_input_failed result) }
    ensures files_counted { Counts (F.faults files.old) (F.faults files.new) (is_fetch_failed result) }
    ensures out_counted { Counts (K.faults out.old) (K.faults out.new) (is_write_failed result) }
    ensures same_files { F.told files.new ≡ F.told files.old }
{
    let Ok(mut buffer) = vec![in alloc; 0u8; PIECE_BYTES] else {
        return Ending::NoMemory;
    };
    match Script::new(alloc).read(&mut buffer, answerer, files, input, out) {
        Ok(()) => Ending::Done,
        Err(ending) => ending,
    }
}
