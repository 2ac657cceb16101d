//! What exports have in common: how names are spelled, the model or the first fault of a file, and the answer to a fault.

ghost use Rattle.std.specs.Prelude.{◌≡◌, Err, IfErr, IfOk};
ghost use Rattle.p21_render.specs.FaultLine.{fault_text};
ghost use Rattle.p21_reader.specs.Answer.{plain_answer};
ghost use Rattle.p21_reader.specs.Reading.{IsReading};
ghost use Rattle.p21_run.specs.declared.outcome.Outcome.TheVariants.{Faulty};

use p21_crew::Gate;
use p21_express::{Declarations, SchemaError};
use p21_hash::HashKey;
use p21_reader::{Reading, read_lanes};
use p21_render::fault_line;
use p21_run::{Accepted, Accepts, Answer, Listener, Options, Outcome};
use p21_schema::{Rules, Schema};
use p21_spelling::{Spellings, spell_names};
use p21_tree::Fault;
use std::alloc::{AllocError, Global};
use std::slice;
use std::sync::Wait;
use std::thread::Threads;

/// Takes each schema, and how its text spells the names that it declares.
#[derive(Clone, Copy, Debug)]
pub struct Spelled;

impl Accepts for Spelled {
    ghost use Rattle.p21_spelling.specs.Spelled.{AreSpelled};

    type Taken = Spellings;

    ghost takes = { λ any s text spelled. AreSpelled s spelled };

    ghost refuses = { λ any s text. ⊥ };

    fn accept(
        &self,
        alloc: Global,
        text: &[u8],
        declarations: Declarations,
        rules: Rules,
        key: HashKey,
    ) -> Result<Accepted<Spellings>, SchemaError> {
        let taken = spell_names(alloc, text, &declarations)?;
        let schema = Schema::build_with_key(alloc, declarations, rules, key)?;
        Ok(Accepted { schema, taken })
    }
}

/// Reads the model of a file as the options say, and has the listener hear that it was checked. Memory alone, or a thread, can be refused.
pub fn read_model<'a, R: Threads + Wait + Sync, G: Gate + Sync, L: Listener>(
    rt: &R,
    alloc: Global,
    options: &Options<'_, G>,
    schema: &Schema,
    file: &'a [u8],
    listener: &mut L,
) -> Result<Reading<'a>, AllocError>
    // It is the reading of the file against the schema.
    ensures { IfOk result (λ reading. IsReading schema.now file.now (plain_answer reading.answer)) }
{
    let capacity = options.capacity_of(file);
    let Ok(reading) = read_lanes(
        rt,
        alloc,
        schema,
        options.gate,
        file,
        options.lanes,
        capacity,
    ) else {
        return Err(AllocError);
    };
    listener.hear_checked();
    Ok(reading)
}

/// The answer of an export to a file with a fault, which the listener hears. Memory alone can fail.
pub fn answer_of_fault<L: Listener>(
    alloc: Global,
    schema: &Schema,
    file: &[u8],
    fault: &Fault,
    listener: &mut L,
) -> Result<Answer, AllocError>
    // It is faulty.
    ensures outcome { IfOk result (λ answer. answer.outcome ≡ Faulty) }
    // What is due is the line of the fault.
    ensures line { IfOk result (λ answer. answer.text.items ≡ fault_text fault.now) }
{
    listener.hear(schema, file, slice::from_ref(fault));
    Ok(Answer {
        outcome: Outcome::Faulty,
        text: fault_line(alloc, fault)?,
    })
}
