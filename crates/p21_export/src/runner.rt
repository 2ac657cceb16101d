//! An export as JSON.

ghost use Rattle.std.specs.Prelude.{◌≡◌, IfErr, IfOk};
ghost use Rattle.p21_spelling.specs.Spelled.{AreSpelled};
ghost use Rattle.p21_reader.specs.Answer.{plain_answer};
ghost use Rattle.p21_reader.specs.Reading.{IsReading};
ghost use Rattle.p21_run.specs.Run.{IsAnswered, IsOfFile, IsRun};
ghost use Rattle.p21_export.specs.Export.{export_of, IsAnswer, IsGivenUp, IsLeft, IsWritten};

use crate::exporting::{Spelled, answer_of_fault, read_model};
use crate::model::write_model;
use p21_crew::Gate;
use p21_desk::LaneCount;
use p21_reader::Reading;
use p21_run::{
    Accepted, Answer, Begun, InputError, Listener, Options, Outcome, Sink, Source, begin, tell,
};
use p21_schema::Schema;
use p21_spelling::Spellings;
use std::alloc::Global;
use std::sync::Wait;
use std::thread::Threads;

/// Reads a schema and then a file, checks the file against the schema, and writes its model as JSON to `out`: the line of its header, and a
/// line for each instance, in order. Where the file or the schema has a fault, its line is written to `told`, as a run of the check tells it,
/// and nothing to `out`. Where a reader or a writer fails, a bound is passed, or memory or a thread is refused, a front of the model may be
/// written.
///
/// Clauses on bytes are of readers and writers in memory. Nothing is promised about output after a write error or for
/// out of memory, beyond these clauses.
pub fn export<
    R: Threads + Wait + Sync,
    G: Gate + Sync,
    S: Source,
    F: Source,
    K: Sink,
    T: Sink,
    L: Listener,
>(
    rt: &R,
    alloc: Global,
    options: &Options<'_, G>,
    schema_in: &mut S,
    file_in: &mut F,
    out: &mut K,
    told: &mut T,
    listener: &mut L,
) -> Outcome
    // It is a run whose answer is an export. If it is complete, the lines of the model of the file, against the schema that
    // the text declares, are written to the writer of the model, and nothing else, and nothing is told. If it is faulty,
    // the line of the first fault of the file is told. If it is faulty or the schema is refused, the writer of the model
    // is not touched.
    ensures { IsRun (export_of (IsWritten K.failed K.taken) (IsLeft K.failed K.marked)) options.now.rules
        (record { marked = S.marked; failed = S.failed; bytes = S.remaining; old = schema_in.old; new = schema_in.new })
        (record { marked = F.marked; failed = F.failed; bytes = F.remaining; old = file_in.old; new = file_in.new })
        out.old out.new
        (record { marked = T.marked; failed = T.failed; bytes = T.taken; old = told.old; new = told.new }) result }
{
    match begin(alloc, &Spelled, options, schema_in, file_in, told, listener) {
        Ok(begun) => answer(rt, alloc, options, &begun, out, told, listener),
        Err(outcome) => outcome,
    }
}

/// Answers both inputs of a run.
fn answer<R: Threads + Wait + Sync, G: Gate + Sync, K: Sink, T: Sink, L: Listener>(
    rt: &R,
    alloc: Global,
    options: &Options<'_, G>,
    begun: &Begun<Spellings>,
    out: &mut K,
    told: &mut T,
    listener: &mut L,
) -> Outcome
    requires { AreSpelled begun.now.accepted.schema begun.now.accepted.taken }
    ensures { IsAnswered (export_of (IsWritten K.failed K.taken) (IsLeft K.failed K.marked)) begun.now.accepted.schema begun.now.text.items begun.now.file.items out.old out.new
        (record { marked = T.marked; failed = T.failed; bytes = T.taken; old = told.old; new = told.new }) result }
{
    let Accepted { schema, taken } = &begun.accepted;
    match export_file(
        rt,
        alloc,
        options,
        schema,
        taken,
        begun.file.as_slice(),
        out,
        listener,
    ) {
        Ok(answer) => tell(told, answer.outcome, answer.text.as_slice(), listener),
        Err(error) => error.outcome(),
    }
}

/// Writes the model of a file, or answers with its first fault.
fn export_file<R: Threads + Wait + Sync, G: Gate + Sync, K: Sink, L: Listener>(
    rt: &R,
    alloc: Global,
    options: &Options<'_, G>,
    schema: &Schema,
    spelled: &Spellings,
    file: &[u8],
    out: &mut K,
    listener: &mut L,
) -> Result<Answer, InputError>
    requires { AreSpelled schema.now spelled.now }
    ensures answered { IfOk result (λ answer. IsAnswer (IsWritten K.failed K.taken) schema.now file.now out.old out.new answer.outcome answer.text.items) }
    ensures of_file { IfOk result (λ answer. IsOfFile answer.outcome) }
    ensures given_up { IfErr result (IsGivenUp (IsLeft K.failed K.marked) schema.now file.now out.old out.new) }
{
    let reading = read_model(rt, alloc, options, schema, file, listener)?;
    let answer = export_reading(
        rt,
        alloc,
        schema,
        spelled,
        file,
        &reading,
        options.lanes,
        out,
        listener,
    )?;
    listener.let_go(reading);
    Ok(answer)
}

/// Writes the model of a reading, or answers with its fault.
fn export_reading<R: Threads + Sync, K: Sink, L: Listener>(
    rt: &R,
    alloc: Global,
    schema: &Schema,
    spelled: &Spellings,
    file: &[u8],
    reading: &Reading<'_>,
    lanes: LaneCount,
    out: &mut K,
    listener: &mut L,
) -> Result<Answer, InputError>
    requires spelled { AreSpelled schema.now spelled.now }
    requires read { IsReading schema.now file.now (plain_answer reading.now.answer) }
    ensures answered { IfOk result (λ answer. IsAnswer (IsWritten K.failed K.taken) schema.now file.now out.old out.new answer.outcome answer.text.items) }
    ensures of_file { IfOk result (λ answer. IsOfFile answer.outcome) }
    ensures given_up { IfErr result (IsGivenUp (IsLeft K.failed K.marked) schema.now file.now out.old out.new) }
{
    match &reading.answer {
        Ok(model) => {
            listener.hear_made();
            write_model(
                rt,
                alloc,
                schema,
                spelled,
                file,
                model.instances(),
                lanes,
                out,
            )?;
            Ok(Answer {
                outcome: Outcome::Complete,
                text: Vec::new(alloc),
            })
        }
        Err(fault) => Ok(answer_of_fault(alloc, schema, file, fault, listener)?),
    }
}
