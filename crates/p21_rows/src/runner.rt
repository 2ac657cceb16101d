//! An export as rows.

ghost use Rattle.std.specs.Prelude.{◌≡◌, Ok, IfErr, IfOk, OnOk, map};
ghost use Rattle.p21_tree.specs.Views.{plain_instance};
ghost use Rattle.p21_spelling.specs.Spelled.{AreSpelled};
ghost use Rattle.p21_reader.specs.Answer.{plain_answer};
ghost use Rattle.p21_reader.specs.Reading.{IsReading};
ghost use Rattle.p21_run.specs.Run.{IsAnswered, IsOfFile, IsRun};
ghost use Rattle.p21_export.specs.Export.{export_of, IsAnswer, IsGivenUp};
ghost use Rattle.p21_rows.specs.Rows.{GivesModel, GivesRows, IsLeft};

use crate::instances::insert_instances;
use crate::layout::Layout;
use crate::metadata::{About, insert_metadata};
use crate::rows::Rows;
use p21_crew::Gate;
use p21_export::{Spelled, answer_of_fault, instances_are_known, preface_of_model, read_model};
use p21_json::Terms;
use p21_reader::Reading;
use p21_run::{
    Accepted, Answer, Begun, InputError, Listener, Options, Outcome, Sink, Source, begin, tell,
};
use p21_schema::Schema;
use p21_spelling::Spellings;
use p21_tree::RawInstance;
use std::alloc::Global;
use std::sync::Wait;
use std::thread::Threads;

/// Reads a schema and then a file, checks the file against the schema, and gives the rows of its model to `rows`. Where the file or the
/// schema has a fault, its line is written to `told`, as a run of the check tells it, and nothing is given to `rows`. Where a reader or a
/// writer fails, a bound is passed, or memory or a thread is refused, some rows may be given.
///
/// What the rows of the model as a whole say, and how columns are called, is tested against the JSON
/// (`tests/run_sqlite`).
///
/// Cost: For each entity that has records, the names of the columns of its row, and the square of their number in
/// time; the rows of one instance are held at a time.
pub fn export_rows<
    R: Threads + Wait + Sync,
    G: Gate + Sync,
    S: Source,
    F: Source,
    D: Rows,
    T: Sink,
    L: Listener,
>(
    rt: &R,
    alloc: Global,
    options: &Options<'_, G>,
    about: &About<'_>,
    schema_in: &mut S,
    file_in: &mut F,
    rows: &mut D,
    told: &mut T,
    listener: &mut L,
) -> Outcome
    // It is a run whose answer is an export. If it is complete, the taker of rows has begun, took the rows of the model, after
    // what it took before, and no others, and has ended, and nothing is told: rows of the model as a whole; for each
    // instance, in file order, its row; for each of its records the row in the table of the entity, with the cell of each
    // value in the place of its attribute (a number that does not parse is a text); and a row for each reference in its
    // parameters. If it is faulty, the line of the first fault of the file is told. If it is faulty or the schema is
    // refused, the taker of rows is not touched.
    ensures { IsRun (export_of (GivesRows D.taken) (IsLeft D.marked)) options.now.rules
        (record { marked = S.marked; failed = S.failed; bytes = S.remaining; old = schema_in.old; new = schema_in.new })
        (record { marked = F.marked; failed = F.failed; bytes = F.remaining; old = file_in.old; new = file_in.new })
        rows.old rows.new
        (record { marked = T.marked; failed = T.failed; bytes = T.taken; old = told.old; new = told.new }) result }
{
    match begin(alloc, &Spelled, options, schema_in, file_in, told, listener) {
        Ok(begun) => answer(rt, alloc, options, about, &begun, rows, told, listener),
        Err(outcome) => outcome,
    }
}

/// Answers both inputs of a run.
fn answer<R: Threads + Wait + Sync, G: Gate + Sync, D: Rows, T: Sink, L: Listener>(
    rt: &R,
    alloc: Global,
    options: &Options<'_, G>,
    about: &About<'_>,
    begun: &Begun<Spellings>,
    rows: &mut D,
    told: &mut T,
    listener: &mut L,
) -> Outcome
    requires { AreSpelled begun.now.accepted.schema begun.now.accepted.taken }
    ensures { IsAnswered (export_of (GivesRows D.taken) (IsLeft D.marked)) begun.now.accepted.schema begun.now.text.items begun.now.file.items rows.old rows.new
        (record { marked = T.marked; failed = T.failed; bytes = T.taken; old = told.old; new = told.new }) result }
{
    let Accepted { schema, taken } = &begun.accepted;
    match export_file(
        rt,
        alloc,
        options,
        about,
        schema,
        taken,
        begun.file.as_slice(),
        rows,
        listener,
    ) {
        Ok(answer) => tell(told, answer.outcome, answer.text.as_slice(), listener),
        Err(error) => error.outcome(),
    }
}

/// Gives the rows of a file, or answers with its first fault.
fn export_file<R: Threads + Wait + Sync, G: Gate + Sync, D: Rows, L: Listener>(
    rt: &R,
    alloc: Global,
    options: &Options<'_, G>,
    about: &About<'_>,
    schema: &Schema,
    spelled: &Spellings,
    file: &[u8],
    rows: &mut D,
    listener: &mut L,
) -> Result<Answer, InputError>
    requires { AreSpelled schema.now spelled.now }
    ensures answered { IfOk result (λ answer. IsAnswer (GivesRows D.taken) schema.now file.now rows.old rows.new answer.outcome answer.text.items) }
    ensures of_file { IfOk result (λ answer. IsOfFile answer.outcome) }
    ensures given_up { IfErr result (IsGivenUp (IsLeft D.marked) schema.now file.now rows.old rows.new) }
{
    let reading = read_model(rt, alloc, options, schema, file, listener)?;
    let answer = export_reading(
        alloc, about, schema, spelled, file, &reading, rows, listener,
    )?;
    listener.let_go(reading);
    Ok(answer)
}

/// Gives the rows of a reading, or answers with its fault.
fn export_reading<D: Rows, L: Listener>(
    alloc: Global,
    about: &About<'_>,
    schema: &Schema,
    spelled: &Spellings,
    file: &[u8],
    reading: &Reading<'_>,
    rows: &mut D,
    listener: &mut L,
) -> Result<Answer, InputError>
    requires spelled { AreSpelled schema.now spelled.now }
    requires read { IsReading schema.now file.now (plain_answer reading.now.answer) }
    ensures answered { IfOk result (λ answer. IsAnswer (GivesRows D.taken) schema.now file.now rows.old rows.new answer.outcome answer.text.items) }
    ensures of_file { IfOk result (λ answer. IsOfFile answer.outcome) }
    ensures given_up { IfErr result (IsGivenUp (IsLeft D.marked) schema.now file.now rows.old rows.new) }
{
    match &reading.answer {
        Ok(model) => {
            listener.hear_made();
            insert_model(alloc, about, schema, spelled, file, model.instances(), rows)?;
            Ok(Answer {
                outcome: Outcome::Complete,
                text: Vec::new(alloc),
            })
        }
        Err(fault) => Ok(answer_of_fault(alloc, schema, file, fault, listener)?),
    }
}

/// Gives the rows of the model of a file that was read against a schema, whose text spells its names so.
fn insert_model<D: Rows>(
    alloc: Global,
    about: &About<'_>,
    schema: &Schema,
    spelled: &Spellings,
    file: &[u8],
    instances: &[RawInstance<'_>],
    rows: &mut D,
) -> Result<(), InputError>
    requires spelled { AreSpelled schema.now spelled.now }
    requires read { IsReading schema.now file.now (Ok (map plain_instance instances.now)) }
    ensures given { OnOk result (GivesModel schema.now (map plain_instance instances.now) (D.taken rows.old) (D.taken rows.new)) }
    ensures left { IfErr result (IsLeft D.marked schema.now file.now rows.old rows.new) }
{
    instances_are_known();
    let terms = Terms::new(alloc, schema, spelled)?;
    let preface = preface_of_model(alloc, schema, file)?;
    let layout = Layout::new(alloc, &terms, instances)?;
    rows.begin(&layout)?;
    insert_metadata(alloc, &terms, about, &preface, instances, rows)?;
    insert_instances(alloc, &terms, &layout, instances, rows)?;
    rows.end()
}
