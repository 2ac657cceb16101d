//! How a run begins and ends, whatever it answers.

ghost use Rattle.std.specs.Prelude.{◌≡◌, ℕ, List, Some, IfErr, IfOk};
ghost use Rattle.p21_express.specs.Reading.{IsReading};
ghost use Rattle.p21_express.specs.Schema.{Schema};
ghost use Rattle.p21_schema.specs.Rules.{with_rules};
ghost use Rattle.p21_render.specs.SchemaFaultLine.{schema_fault_text};
ghost use Rattle.p21_run.specs.Run.{IsBegun, IsRefusalTold, IsRefused, IsStopped, IsTold};

use crate::accepts::{Accepted, Accepts};
use crate::input::{FILE_BOUNDS, SCHEMA_BOUNDS, read_bounded};
use crate::listener::Listener;
use crate::options::Options;
use crate::outcome::Outcome;
use crate::output::{OutputError, WRITE_CALLS, write_bounded};
use crate::source::{Sink, Source};
use p21_express::{SchemaError, read_declarations};
use p21_render::schema_fault_line;
use std::alloc::{AllocError, Global};

/// Both inputs of a run: the text of the schema, the schema with what was taken from the text, and the bytes of the file.
#[derive(Drop)]
pub struct Begun<T> {
    pub text: Vec<u8>,
    pub accepted: Accepted<T>,
    pub file: Vec<u8>,
}

/// Reads a schema and then a file. Where that fails, the run ends with the outcome: where the schema is refused, the line of its fault is written to
/// `told`, and the file is not read. The listener hears how far it is.
///
/// A schema of more than 16777216 bytes, a file of more than 4294967296, or more than 16777216 calls of one reader or of the writer, is answered as
/// `Device`; a call that was interrupted, or a write that took no byte, counts and is made again.
pub fn begin<G, S: Source, F: Source, K: Sink, L: Listener, A: Accepts>(
    alloc: Global,
    accepts: &A,
    options: &Options<'_, G>,
    schema_in: &mut S,
    file_in: &mut F,
    told: &mut K,
    listener: &mut L,
) -> Result<Begun<A::Taken>, Outcome>
    // Both inputs are read to their ends, and the schema is the one that the text declares, under the rules.
    ensures begun { IfOk result (λ begun. IsBegun options.now.rules
        (record { marked = S.marked; failed = S.failed; bytes = S.remaining; old = schema_in.old; new = schema_in.new })
        (record { marked = F.marked; failed = F.failed; bytes = F.remaining; old = file_in.old; new = file_in.new })
        begun.accepted.schema begun.text.items begun.file.items) }
    // What is needed is taken from the text of the schema.
    ensures taken { IfOk result (λ begun. A.takes accepts.now begun.accepted.schema begun.text.items begun.accepted.taken) }
    // Nothing is told yet.
    ensures untold { IfOk result (λ _. told.new ≡ told.old) }
    // Otherwise the run stops with this outcome.
    ensures stopped { IfErr result (IsStopped (A.refuses accepts.now) options.now.rules
        (record { marked = S.marked; failed = S.failed; bytes = S.remaining; old = schema_in.old; new = schema_in.new })
        (record { marked = F.marked; failed = F.failed; bytes = F.remaining; old = file_in.old; new = file_in.new })
        (record { marked = K.marked; failed = K.failed; bytes = K.taken; old = told.old; new = told.new })) }
{
    let text = match read_bounded(alloc, schema_in, SCHEMA_BOUNDS) {
        Ok(text) => text,
        Err(error) => return Err(error.outcome()),
    };
    let accepted = match accept(alloc, accepts, options, text.as_slice()) {
        Ok(accepted) => accepted,
        Err(error) => {
            listener.hear_refused(text.as_slice(), &error);
            return Err(tell_refusal(alloc, error, told, listener));
        }
    };
    listener.hear_schema(text.as_slice());
    let file = match read_bounded(alloc, file_in, FILE_BOUNDS) {
        Ok(file) => file,
        Err(error) => return Err(error.outcome()),
    };
    listener.hear_file(file.as_slice());
    Ok(Begun {
        text,
        accepted,
        file,
    })
}

/// A schema, and what is taken from its text.
fn accept<G, A: Accepts>(
    alloc: Global,
    accepts: &A,
    options: &Options<'_, G>,
    text: &[u8],
) -> Result<Accepted<A::Taken>, SchemaError>
    ensures schema { IfOk result (λ accepted. (s : Schema) × IsReading text.now s × (accepted.schema ≡ with_rules s options.now.rules)) }
    ensures taken { IfOk result (λ accepted. A.takes accepts.now accepted.schema text.now accepted.taken) }
    ensures refused { IfErr result (λ e. (line : List ℕ) → schema_fault_text e ≡ Some line → IsRefused (A.refuses accepts.now) options.now.rules text.now line) }
{
    match read_declarations(alloc, text) {
        Ok(declarations) => accepts.accept(alloc, text, declarations, options.rules, options.key),
        Err(error) => Err(error),
    }
}

/// Tells why a schema's text is refused, where it is not for lack of memory.
fn tell_refusal<K: Sink, L: Listener>(
    alloc: Global,
    error: SchemaError,
    told: &mut K,
    listener: &mut L,
) -> Outcome
    ensures { IsRefusalTold (record { marked = K.marked; failed = K.failed; bytes = K.taken; old = told.old; new = told.new }) error result }
{
    match schema_fault_line(alloc, error) {
        Ok(line) => tell(told, Outcome::SchemaRefused, line.as_slice(), listener),
        Err(AllocError) => Outcome::Memory,
    }
}

/// Ends a run: writes the text that is due for the report with an outcome. The listener hears that it is made. Where it is empty, nothing is asked
/// of the writer.
pub fn tell<K: Sink, L: Listener>(
    told: &mut K,
    outcome: Outcome,
    text: &[u8],
    listener: &mut L,
) -> Outcome
    // The text is written, and the outcome is the one that is due with it; or a front of it, and the outcome is Device.
    ensures { IsTold (record { marked = K.marked; failed = K.failed; bytes = K.taken; old = told.old; new = told.new }) text.now outcome result }
{
    if text.is_empty() {
        return outcome;
    }
    listener.hear_made();
    match write_bounded(told, text, WRITE_CALLS) {
        Ok(()) => outcome,
        Err(OutputError) => Outcome::Device,
    }
}
