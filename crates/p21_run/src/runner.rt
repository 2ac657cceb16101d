//! A run over a schema and a file.

ghost use Rattle.std.specs.Prelude.{◌≡◌, ◌<◌, ◌≤◌, ◌⊎◌, ℕ, List, Some, false, true, length};
ghost use Rattle.std.specs.Io.KnownBytes.{IsAtEnd, Keeps};
ghost use Rattle.p21_express.specs.Answer.{HasNoReading};
ghost use Rattle.p21_express.specs.Reading.{IsReading};
ghost use Rattle.p21_express.specs.Schema.{Schema};
ghost use Rattle.p21_run.specs.Check.{check};
ghost use Rattle.p21_run.specs.Due.{Writes, IsLong, IsLongText, most_file_bytes, most_schema_bytes};
ghost use Rattle.p21_run.specs.Run.{IsAnswered, IsRun};
ghost use Rattle.p21_run.specs.declared.outcome.Outcome.TheVariants.{Complete, Device, Faulty, Memory, SchemaRefused};

use crate::accepts::AsDeclared;
use crate::both_inputs::{Begun, begin, tell};
use crate::check::report;
use crate::listener::{Listener, Silent};
use crate::options::Options;
use crate::outcome::Outcome;
use crate::source::{Sink, Source};
use p21_crew::Gate;
use p21_desk::LaneCount;
use p21_hash::HashKey;
use p21_lanes::Capacity;
use p21_schema::Rules;
use std::alloc::{AllocError, Global};
use std::sync::Wait;
use std::thread::Threads;

/// Reads a schema and then a file, checks the file against the schema, and writes the report: that of the file's model, the
/// line of its first fault, or the line of the schema's. Where all faults are wanted, it writes the lines of all faults of the
/// file in place of the first alone.
///
/// A schema of more than 16777216 bytes, a file of more than 4294967296, or more than 16777216 calls of one reader or of the
/// writer, is answered as `Device`; a call that was interrupted, or a write that took no byte, counts and is made again. The
/// file is not read where the schema is refused.
///
/// The file is read by so many lanes, whose workers pass the gate before each list of pieces, with the number of its first one; for no
/// worker more pieces wait at a time than the capacity. What is written hangs on neither. The schema is read under the rules: with
/// `distinct`, no SET and no LIST OF UNIQUE may name one instance twice. Names and keywords are hashed by a key that is always the same: for inputs from strangers,
/// who may know it and choose names that take long, `run_heard` takes another.
pub fn run<R: Threads + Wait + Sync, G: Gate + Sync, S: Source, F: Source, K: Sink>(
    rt: &R,
    alloc: Global,
    gate: &G,
    schema_in: &mut S,
    file_in: &mut F,
    out: &mut K,
    lanes: LaneCount,
    capacity: Capacity,
    all: bool,
    rules: Rules,
) -> Outcome
    // Over readers and a writer that tell their bytes, as those in memory do: exactly the report that is due is
    // written; for out of memory nothing; for Device a prefix of it, or nothing. Lanes, capacity and gate change
    // nothing of this.
    ensures written { (schema_text file : List ℕ) → S.remaining schema_in.old ≡ Some schema_text → F.remaining file_in.old ≡ Some file → Writes all rules schema_text file result (K.taken out.old) (K.taken out.new) }
    // A schema that is refused, or whose file is complete or faulty, is within its limit.
    ensures schema_bounded { result ≡ Complete ⊎ (result ≡ Faulty ⊎ result ≡ SchemaRefused) → (schema_text : List ℕ) → S.remaining schema_in.old ≡ Some schema_text → length schema_text ≤ most_schema_bytes }
    // A file that is complete or faulty is within its limit.
    ensures file_bounded { result ≡ Complete ⊎ result ≡ Faulty → (file : List ℕ) → F.remaining file_in.old ≡ Some file → length file ≤ most_file_bytes }
    // The file is not touched if the schema has no reading or exceeds its limit.
    ensures unread { (schema_text : List ℕ) → S.remaining schema_in.old ≡ Some schema_text → HasNoReading schema_text ⊎ (most_schema_bytes < length schema_text) → file_in.new ≡ file_in.old }
    // If the schema exceeds its limit, the result is Device or Memory, and nothing is written.
    ensures overlong_schema { (schema_text : List ℕ) → S.remaining schema_in.old ≡ Some schema_text → most_schema_bytes < length schema_text → (result ≡ Device ⊎ result ≡ Memory) × (out.new ≡ out.old) }
    // The same of a file, if the schema has a reading.
    ensures overlong_file { (schema_text file : List ℕ) → (s : Schema) → S.remaining schema_in.old ≡ Some schema_text → IsReading schema_text s → F.remaining file_in.old ≡ Some file → most_file_bytes < length file → (result ≡ Device ⊎ result ≡ Memory) × (out.new ≡ out.old) }
    // If the reader of the schema fails, which had not failed before, the result is Device, and neither file nor
    // writer is touched.
    ensures schema_failed { S.failed schema_in.old ≡ false → S.failed schema_in.new ≡ true → (result ≡ Device) × (file_in.new ≡ file_in.old) × (out.new ≡ out.old) }
    // If the reader of the file fails, which had not failed before, the result is Device, and the writer is not
    // touched.
    ensures file_failed { F.failed file_in.old ≡ false → F.failed file_in.new ≡ true → (result ≡ Device) × (out.new ≡ out.old) }
    // If the writer fails, which had not failed before, the result is Device.
    ensures writer_failed { K.failed out.old ≡ false → K.failed out.new ≡ true → result ≡ Device }
    // If a reader of the schema that tells its bytes has some left, the result is Device or Memory, and neither file
    // nor writer is touched.
    ensures schema_remains { ¬ (IsAtEnd (S.remaining schema_in.new)) → (result ≡ Device ⊎ result ≡ Memory) × (file_in.new ≡ file_in.old) × (out.new ≡ out.old) }
    // The same of the file and the writer, if both readers tell their bytes and the schema has a reading.
    ensures file_remains { (schema_text file : List ℕ) → (s : Schema) → S.remaining schema_in.old ≡ Some schema_text → IsReading schema_text s → F.remaining file_in.old ≡ Some file → ¬ (IsAtEnd (F.remaining file_in.new)) → (result ≡ Device ⊎ result ≡ Memory) × (out.new ≡ out.old) }
    // For Device, if the writer never failed, was never interrupted and always took a byte, nothing is written, or a
    // text that is due has at least 16777216 bytes.
    ensures unwritten { result ≡ Device → K.marked out.new ≡ false → (schema_text file : List ℕ) → S.remaining schema_in.old ≡ Some schema_text → F.remaining file_in.old ≡ Some file → Keeps (K.taken out.old) (K.taken out.new) ⊎ IsLongText all rules schema_text file }
    // The result is Device only if a reader or the writer failed, was interrupted or took no byte, or an input or a
    // text that is due has at least 16777216 bytes.
    ensures cause { result ≡ Device → S.marked schema_in.new ≡ false → F.marked file_in.new ≡ false → K.marked out.new ≡ false → (schema_text file : List ℕ) → S.remaining schema_in.old ≡ Some schema_text → F.remaining file_in.old ≡ Some file → IsLong all rules schema_text file }
{
    let options = Options {
        gate,
        lanes,
        capacity: Some(capacity),
        all,
        rules,
        key: HashKey::default(),
    };
    run_heard(rt, alloc, &options, schema_in, file_in, out, &mut Silent)
}

/// The same as `run`, by options, and a listener hears how far the run is, and the faults that are found, before the report is written. By a key
/// that a stranger does not know, no file takes long for its names.
///
/// The clauses of `run` follow from its one. That the listener hears the faults before the report is written is tested.
pub fn run_heard<
    R: Threads + Wait + Sync,
    G: Gate + Sync,
    S: Source,
    F: Source,
    K: Sink,
    L: Listener,
>(
    rt: &R,
    alloc: Global,
    options: &Options<'_, G>,
    schema_in: &mut S,
    file_in: &mut F,
    out: &mut K,
    listener: &mut L,
) -> Outcome
    // It is a run whose answer is that of a check.
    ensures { IsRun (check options.now.all) options.now.rules
        (record { marked = S.marked; failed = S.failed; bytes = S.remaining; old = schema_in.old; new = schema_in.new })
        (record { marked = F.marked; failed = F.failed; bytes = F.remaining; old = file_in.old; new = file_in.new })
        tt tt
        (record { marked = K.marked; failed = K.failed; bytes = K.taken; old = out.old; new = out.new }) result }
{
    match begin(
        alloc,
        &AsDeclared,
        options,
        schema_in,
        file_in,
        out,
        listener,
    ) {
        Ok(begun) => answer(rt, alloc, options, &begun, out, listener),
        Err(outcome) => outcome,
    }
}

/// Answers both inputs of a run.
fn answer<R: Threads + Wait + Sync, G: Gate + Sync, K: Sink, L: Listener>(
    rt: &R,
    alloc: Global,
    options: &Options<'_, G>,
    begun: &Begun<()>,
    out: &mut K,
    listener: &mut L,
) -> Outcome
    ensures { IsAnswered (check options.now.all) begun.now.accepted.schema begun.now.text.items begun.now.file.items tt tt
        (record { marked = K.marked; failed = K.failed; bytes = K.taken; old = out.old; new = out.new }) result }
{
    let schema = &begun.accepted.schema;
    match report(rt, alloc, options, schema, begun.file.as_slice(), listener) {
        Ok(answer) => tell(out, answer.outcome, answer.text.as_slice(), listener),
        Err(AllocError) => Outcome::Memory,
    }
}
