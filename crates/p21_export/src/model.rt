//! Writing a model.

ghost use Rattle.std.specs.Prelude.{◌≡◌, ◌+◌, ◌<◌, ◌≤◌, ℕ, List, Ok, Err, IfErr, IfOk, OnOk, drop, false, length, map, take, true};
ghost use Rattle.std.specs.Fork.{slice_chunk};
ghost use Rattle.std.specs.Io.KnownBytes.{Appends};
ghost use Rattle.std.specs.List.{AllByRecursion};
ghost use Rattle.p21_tree.specs.Views.{plain_instance, plain_preface};
ghost use Rattle.p21_reader.specs.Reading.{IsReading};
ghost use Rattle.p21_spelling.specs.Spelled.{AreSpelled};
ghost use Rattle.p21_run.specs.Due.{most_calls};
ghost use Rattle.p21_run.specs.declared.input.InputError.TheVariants.{Device};
ghost use Rattle.p21_json.specs.Header.{IsHeaderParts};
ghost use Rattle.p21_json.specs.Instances.{AreKnown};
ghost use Rattle.p21_json.specs.Lines.{AreLines, IsLineOf};
ghost use Rattle.p21_export.specs.Export.{HasLongLines, IsLeft, IsWritten};

use crate::preface::preface_of_model;
use p21_desk::LaneCount;
use p21_json::{Terms, write_header, write_lines};
use p21_run::{InputError, OutputError, Sink, WRITE_CALLS, write_bounded};
use p21_schema::Schema;
use p21_spelling::Spellings;
use p21_tree::{Preface, RawInstance};
use std::alloc::{AllocError, Global};
use std::thread::{Threads, map_indices};

/// How many bytes of the file the instances have, but for the last of them, that are rendered before they are written.
const ROUND: u64 = 1 << 20;

/// Writes the model of a file that was read against a schema, whose text spells its names so: the line of its header, and a line for each
/// instance. As many threads render as there are lanes. Where that fails, a front of these may be written.
pub(crate) fn write_model<R: Threads + Sync, K: Sink>(
    rt: &R,
    alloc: Global,
    schema: &Schema,
    spelled: &Spellings,
    file: &[u8],
    instances: &[RawInstance<'_>],
    lanes: LaneCount,
    out: &mut K,
) -> Result<(), InputError>
    requires spelled { AreSpelled schema.now spelled.now }
    requires read { IsReading schema.now file.now (Ok (map plain_instance instances.now)) }
    ensures written { OnOk result (IsWritten K.failed K.taken schema.now file.now out.old out.new) }
    ensures left { IfErr result (IsLeft K.failed K.marked schema.now file.now out.old out.new) }
{
    let terms = Terms::new(alloc, schema, spelled)?;
    let preface = preface_of_model(alloc, schema, file)?;
    write_first(alloc, &terms, &preface, out)?;
    write_others(rt, alloc, &terms, instances, lanes, out)
}

/// Writes the line of a header.
fn write_first<K: Sink>(
    alloc: Global,
    terms: &Terms<'_>,
    preface: &Preface<'_>,
    out: &mut K,
) -> Result<(), InputError>
    requires { 3 ≤ length preface.now.entities.items }
    ensures written { OnOk result ((first : List ℕ) × (IsLineOf terms.now (IsHeaderParts (plain_preface preface.now)) first × Appends (K.taken out.old) (K.taken out.new) first)) }
    ensures unfailed { OnOk result (K.failed out.new ≡ K.failed out.old) }
    ensures failed { K.failed out.old ≡ false → K.failed out.new ≡ true → result ≡ Err Device }
    ensures cause { IfErr result (λ e. e ≡ Device → K.marked out.new ≡ false → (line : List ℕ) × IsLineOf terms.now (IsHeaderParts (plain_preface preface.now)) line × (most_calls ≤ length line)) }
{
    let text = write_header(alloc, terms, preface)?;
    write(out, text.as_slice())
}

/// Writes the lines of instances, round after round.
fn write_others<R: Threads + Sync, K: Sink>(
    rt: &R,
    alloc: Global,
    terms: &Terms<'_>,
    instances: &[RawInstance<'_>],
    lanes: LaneCount,
    out: &mut K,
) -> Result<(), InputError>
    requires { AllByRecursion (λ i. AreKnown terms.now i.records) (map plain_instance instances.now) }
    ensures written { OnOk result ((others : List ℕ) × (AreLines terms.now (map plain_instance instances.now) others × Appends (K.taken out.old) (K.taken out.new) others)) }
    ensures unfailed { OnOk result (K.failed out.new ≡ K.failed out.old) }
    ensures failed { K.failed out.old ≡ false → K.failed out.new ≡ true → result ≡ Err Device }
    ensures cause { IfErr result (λ e. e ≡ Device → K.marked out.new ≡ false → HasLongLines terms.now (map plain_instance instances.now)) }
{
    let mut start = 0;
    while start < instances.len() {
        let round = round_at(instances, start);
        write_round(rt, alloc, terms, round, lanes, out)?;
        start += round.len();
    }
    Ok(())
}

/// The instances of the next round.
fn round_at<'i, 'a>(instances: &'i [RawInstance<'a>], start: usize) -> &'i [RawInstance<'a>]
    requires { start < length instances.now }
    ensures some { 0 < length result.now }
    ensures within { start + length result.now ≤ length instances.entry.now }
    ensures part { result.now ≡ take (length result.now) (drop start instances.entry.now) }
{
    let (_, rest) = instances.split_at(start);
    let end = rest[0].at.saturating_add(ROUND);
    let count = rest
        .iter()
        .take_while(|instance| instance.at < end)
        .count()
        .max(1);
    let (round, _) = rest.split_at(count);
    round
}

/// Writes the lines of the instances of a round, of which each thread renders a part.
fn write_round<R: Threads + Sync, K: Sink>(
    rt: &R,
    alloc: Global,
    terms: &Terms<'_>,
    instances: &[RawInstance<'_>],
    lanes: LaneCount,
    out: &mut K,
) -> Result<(), InputError>
    requires { AllByRecursion (λ i. AreKnown terms.now i.records) (map plain_instance instances.now) }
    ensures written { OnOk result ((lines : List ℕ) × (AreLines terms.now (map plain_instance instances.now) lines × Appends (K.taken out.old) (K.taken out.new) lines)) }
    ensures unfailed { OnOk result (K.failed out.new ≡ K.failed out.old) }
    ensures failed { K.failed out.old ≡ false → K.failed out.new ≡ true → result ≡ Err Device }
    ensures cause { IfErr result (λ e. e ≡ Device → K.marked out.new ≡ false → HasLongLines terms.now (map plain_instance instances.now)) }
{
    let size = instances.len().div_ceil(lanes.get() as usize).max(1);
    let part = move |number: usize| -> Result<Vec<u8>, AllocError>
        requires { AllByRecursion (λ i. AreKnown terms.now i.records) (map plain_instance instances.now) }
        ensures { IfOk result (λ text. AreLines terms.entry.now (map plain_instance (slice_chunk instances.entry.now size number)) text.items) }
    { lines_of_part(alloc, terms, instances, size, number) };
    let texts = map_indices(rt, alloc, instances.len().div_ceil(size), &part)?;
    for text in texts.as_slice() {
        match text {
            Ok(text) => write(out, text.as_slice())?,
            Err(_) => return Err(InputError::Memory),
        }
    }
    Ok(())
}

/// The lines of the part of this number, from 0, of some instances that are cut in parts of this size. Memory alone can fail.
fn lines_of_part(
    alloc: Global,
    terms: &Terms<'_>,
    instances: &[RawInstance<'_>],
    size: usize,
    number: usize,
) -> Result<Vec<u8>, AllocError>
    requires { AllByRecursion (λ i. AreKnown terms.now i.records) (map plain_instance instances.now) }
    ensures { IfOk result (λ text. AreLines terms.now (map plain_instance (slice_chunk instances.now size number)) text.items) }
{
    let start = number.saturating_mul(size).min(instances.len());
    let (_, rest) = instances.split_at(start);
    let (part, _) = rest.split_at(size.min(rest.len()));
    write_lines(alloc, terms, part)
}

/// Writes a text.
fn write<K: Sink>(out: &mut K, text: &[u8]) -> Result<(), InputError>
    ensures written { OnOk result (Appends (K.taken out.old) (K.taken out.new) text.now) }
    ensures unfailed { OnOk result (K.failed out.new ≡ K.failed out.old) }
    ensures failed { K.failed out.old ≡ false → K.failed out.new ≡ true → result ≡ Err Device }
    ensures cause { IfErr result (λ e. e ≡ Device → K.marked out.new ≡ false → most_calls ≤ length text.now) }
{
    match write_bounded(out, text, WRITE_CALLS) {
        Ok(()) => Ok(()),
        Err(OutputError) => Err(InputError::Device),
    }
}
