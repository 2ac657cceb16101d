//! A run over a schema and a file that checks by the rules too.

ghost use Rattle.std.specs.Prelude.{◌≡◌, ◌≢◌, ◌⊎◌, ◌++◌, [], IfOk, MatchBool, map};
ghost use Rattle.p21_join.specs.Model.{instances_of, plain_instances};
ghost use Rattle.p21_reader.specs.AllAnswer.{plain_all};
ghost use Rattle.p21_reader.specs.AllFaults.{IsReadingWithAll};
ghost use Rattle.p21_reader.specs.Answer.{plain_answer};
ghost use Rattle.p21_reader.specs.Reading.{IsReading};
ghost use Rattle.p21_render.specs.ReadingText.{IsModelText};
ghost use Rattle.p21_rule_run.specs.BrokenLine.{rule_broken_lines, told_after};
ghost use Rattle.p21_rule_run.specs.FaultLine.{rule_fault_lines};
ghost use Rattle.p21_rule_run.specs.RuleFault.{AreRuleFaults, AreRulesIn};
ghost use Rattle.p21_rule_run.specs.Ruled.{rule_check, told, IsFirstRuled, IsFullyRuled, IsOfModel, IsRuled, TakesRules};
ghost use Rattle.p21_run.specs.Run.{IsAnswered, IsRun};
ghost use Rattle.p21_run.specs.declared.outcome.Outcome.TheVariants.{Complete, Faulty};
ghost use Rattle.p21_tree.specs.Views.{plain_instance};

use crate::broken_text::push_broken_rules;
use crate::fault_text::render_rule_faults;
use crate::listener::{RuleListener, Ruled};
use crate::rule_fault::{RuleFault, rule_faults};
use p21_crew::Gate;
use p21_express::{Declarations, SchemaError};
use p21_hash::HashKey;
use p21_join::Model;
use p21_reader::{AllFaults, Reading, read_all_faults, read_lanes};
use p21_render::{counts_with_key, fault_line, model_text, render_faults};
use p21_rule_text::{Rules, read_rules};
use p21_run::{Accepted, Accepts, Answer, Begun, Options, Outcome, Sink, Source, begin, tell};
use p21_schema::{Rules as SchemaRules, Schema};
use p21_tree::RawInstance;
use p21_where_findings::{BrokenRule, WhereChecker, WhereFindings, WhereRule};
use std::alloc::{AllocError, Global};
use std::slice;
use std::sync::Wait;
use std::thread::Threads;

/// Reads a schema and its rules UNIQUE and INVERSE attributes and then a file, checks the file against the schema and, where it has no fault, against the rules, and
/// writes the report: that of the file's model, or the line of its first fault, or of all of them, or the line of the schema's.
///
/// The file is not read where the schema or its rules are refused.
pub fn run_rules<
    R: Threads + Wait + Sync,
    G: Gate + Sync,
    S: Source,
    F: Source,
    K: Sink,
    L: RuleListener,
    W: WhereChecker,
>(
    rt: &R,
    alloc: Global,
    options: &Options<'_, G>,
    where_checker: &W,
    steps: u64,
    schema_in: &mut S,
    file_in: &mut F,
    out: &mut K,
    listener: &mut L,
) -> Outcome
    // It is a run whose answer is that of a check by the rules: the report has the line of the fault of the file's reading, or all
    // where all are wanted; else the lines of the faults by the rules of the text, sorted by place, and at one place
    // those of UNIQUE first, or the first alone; else the report of the model. A schema is refused where it has no rules.
    ensures { IsRun (rule_check options.now.all) options.now.rules
        (record { marked = S.marked; failed = S.failed; bytes = S.remaining; old = schema_in.old; new = schema_in.new })
        (record { marked = F.marked; failed = F.failed; bytes = F.remaining; old = file_in.old; new = file_in.new })
        tt tt
        (record { marked = K.marked; failed = K.failed; bytes = K.taken; old = out.old; new = out.new }) result }
{
    match begin(
        alloc, &WithRules, options, schema_in, file_in, out, listener,
    ) {
        Ok(begun) => answer(
            rt,
            alloc,
            options,
            where_checker,
            steps,
            &begun,
            out,
            listener,
        ),
        Err(outcome) => outcome,
    }
}

/// Takes a schema and the rules of its text, and refuses one whose text has none.
#[derive(Clone, Copy, Debug)]
struct WithRules;

impl Accepts for WithRules {
    ghost use Rattle.p21_rule_text.specs.Rules.{HasNoRules};
    ghost use Rattle.p21_rule_run.specs.Ruled.{TakesRules};

    type Taken = Rules;

    ghost takes = { λ any. TakesRules };

    ghost refuses = { λ any. HasNoRules };

    fn accept(
        &self,
        alloc: Global,
        text: &[u8],
        declarations: Declarations,
        rules: SchemaRules,
        key: HashKey,
    ) -> Result<Accepted<Rules>, SchemaError> {
        let schema = Schema::build_with_key(alloc, declarations, rules, key)?;
        match read_rules(alloc, text, &schema) {
            Ok(taken) => Ok(Accepted { schema, taken }),
            Err(error) => Err(error),
        }
    }
}

/// Answers both inputs of a run.
fn answer<R: Threads + Wait + Sync, G: Gate + Sync, K: Sink, L: RuleListener, W: WhereChecker>(
    rt: &R,
    alloc: Global,
    options: &Options<'_, G>,
    where_checker: &W,
    steps: u64,
    begun: &Begun<Rules>,
    out: &mut K,
    listener: &mut L,
) -> Outcome
    requires { TakesRules begun.now.accepted.schema begun.now.text.items begun.now.accepted.taken }
    ensures { IsAnswered (rule_check options.now.all) begun.now.accepted.schema begun.now.text.items begun.now.file.items tt tt
        (record { marked = K.marked; failed = K.failed; bytes = K.taken; old = out.old; new = out.new }) result }
{
    let Accepted { schema, taken } = &begun.accepted;
    let by = By {
        rules: taken,
        text: begun.text.as_slice(),
        steps,
    };
    match report_of_file(
        rt,
        alloc,
        options,
        schema,
        where_checker,
        by,
        begun.file.as_slice(),
        listener,
    ) {
        Ok(answer) => tell(out, answer.outcome, answer.text.as_slice(), listener),
        Err(AllocError) => Outcome::Memory,
    }
}

/// By what a file is checked after its schema.
#[derive(Clone, Copy)]
struct By<'r> {
    rules: &'r Rules,
    /// The schema's text, which has the rules of WHERE.
    text: &'r [u8],
    /// How many steps a rule of WHERE may take.
    steps: u64,
}

/// What is to be written of a file.
fn report_of_file<R: Threads + Wait + Sync, G: Gate + Sync, L: RuleListener, W: WhereChecker>(
    rt: &R,
    alloc: Global,
    options: &Options<'_, G>,
    schema: &Schema,
    where_checker: &W,
    by: By<'_>,
    file: &[u8],
    listener: &mut L,
) -> Result<Answer, AllocError>
    requires { AreRulesIn schema.now by.rules.now }
    ensures { IfOk result (λ report. IsRuled options.now.all schema.now by.entry.rules.now file.now report.outcome report.text.items) }
{
    if options.all {
        full_report_of_file(
            rt,
            alloc,
            options,
            schema,
            where_checker,
            by,
            file,
            listener,
        )
    } else {
        first_report_of_file(
            rt,
            alloc,
            options,
            schema,
            where_checker,
            by,
            file,
            listener,
        )
    }
}

/// What is to be written of a file with all its faults.
fn full_report_of_file<R: Threads + Wait + Sync, G: Gate + Sync, L: RuleListener, W: WhereChecker>(
    rt: &R,
    alloc: Global,
    options: &Options<'_, G>,
    schema: &Schema,
    where_checker: &W,
    by: By<'_>,
    file: &[u8],
    listener: &mut L,
) -> Result<Answer, AllocError>
    requires { AreRulesIn schema.now by.rules.now }
    ensures { IfOk result (λ report. IsFullyRuled schema.now by.entry.rules.now file.now report.outcome report.text.items) }
{
    let capacity = options.capacity_of(file);
    let Ok(all) = read_all_faults(
        rt,
        alloc,
        schema,
        options.gate,
        file,
        options.lanes,
        capacity,
    ) else {
        return Err(AllocError);
    };
    listener.hear_checked();
    let report = report_of_all(rt, alloc, schema, where_checker, by, file, &all, listener)?;
    listener.let_go(all);
    Ok(report)
}

/// What is to be written of a file with its first fault alone.
fn first_report_of_file<R: Threads + Wait + Sync, G: Gate + Sync, L: RuleListener, W: WhereChecker>(
    rt: &R,
    alloc: Global,
    options: &Options<'_, G>,
    schema: &Schema,
    where_checker: &W,
    by: By<'_>,
    file: &[u8],
    listener: &mut L,
) -> Result<Answer, AllocError>
    requires { AreRulesIn schema.now by.rules.now }
    ensures { IfOk result (λ report. IsFirstRuled schema.now by.entry.rules.now file.now report.outcome report.text.items) }
{
    let capacity = options.capacity_of(file);
    let Ok(reading) = read_lanes(
        rt,
        alloc,
        schema,
        options.gate,
        file,
        options.lanes,
        capacity,
    ) else {
        return Err(AllocError);
    };
    listener.hear_checked();
    let report = report_of_reading(
        rt,
        alloc,
        schema,
        where_checker,
        by,
        file,
        &reading,
        listener,
    )?;
    listener.let_go(reading);
    Ok(report)
}

/// What is to be written of a reading with all faults.
fn report_of_all<R: Threads + Sync, L: RuleListener, W: WhereChecker>(
    rt: &R,
    alloc: Global,
    schema: &Schema,
    where_checker: &W,
    by: By<'_>,
    file: &[u8],
    all: &AllFaults<'_>,
    listener: &mut L,
) -> Result<Answer, AllocError>
    requires rules { AreRulesIn schema.now by.rules.now }
    requires read { IsReadingWithAll schema.now file.now (plain_all all.now.answer) }
    ensures { IfOk result (λ report. IsFullyRuled schema.now by.entry.rules.now file.now report.outcome report.text.items) }
{
    match &all.answer {
        Ok(model) => report_of_model(
            rt,
            alloc,
            schema,
            where_checker,
            by,
            true,
            file,
            model,
            listener,
        ),
        Err(faults) => {
            listener.hear(schema, file, faults.as_slice());
            let text = render_faults(alloc, faults.as_slice())?;
            Ok(faulty(text))
        }
    }
}

/// What is to be written of a reading.
fn report_of_reading<R: Threads + Sync, L: RuleListener, W: WhereChecker>(
    rt: &R,
    alloc: Global,
    schema: &Schema,
    where_checker: &W,
    by: By<'_>,
    file: &[u8],
    reading: &Reading<'_>,
    listener: &mut L,
) -> Result<Answer, AllocError>
    requires rules { AreRulesIn schema.now by.rules.now }
    requires read { IsReading schema.now file.now (plain_answer reading.now.answer) }
    ensures { IfOk result (λ report. IsFirstRuled schema.now by.entry.rules.now file.now report.outcome report.text.items) }
{
    match &reading.answer {
        Ok(model) => report_of_model(
            rt,
            alloc,
            schema,
            where_checker,
            by,
            false,
            file,
            model,
            listener,
        ),
        Err(fault) => {
            listener.hear(schema, file, slice::from_ref(fault));
            let text = fault_line(alloc, fault)?;
            Ok(faulty(text))
        }
    }
}

/// A report of faults.
fn faulty(text: Vec<u8>) -> Answer
    ensures { result ≡ record { outcome = Faulty; text = text } }
{
    Answer {
        outcome: Outcome::Faulty,
        text,
    }
}

/// What is to be written of a model.
fn report_of_model<R: Threads + Sync, L: RuleListener, W: WhereChecker>(
    rt: &R,
    alloc: Global,
    schema: &Schema,
    where_checker: &W,
    by: By<'_>,
    all: bool,
    file: &[u8],
    model: &Model<'_>,
    listener: &mut L,
) -> Result<Answer, AllocError>
    requires { AreRulesIn schema.now by.rules.now }
    ensures { IfOk result (λ report. IsOfModel all schema.now by.entry.rules.now (plain_instances (instances_of model.now)) report.outcome report.text.items) }
{
    let found = rule_faults(alloc, schema, by.rules, model)?;
    let by_where = where_checker.find(rt, alloc, schema, by.text, by.steps, file, model)?;
    report_of_findings(
        alloc, schema, by.rules, all, file, model, &found, &by_where, listener,
    )
}

/// What is to be written of a model that has these faults and these findings of rules WHERE.
fn report_of_findings<L: RuleListener>(
    alloc: Global,
    schema: &Schema,
    rules: &Rules,
    all: bool,
    file: &[u8],
    model: &Model<'_>,
    faults: &[RuleFault],
    by_where: &WhereFindings,
    listener: &mut L,
) -> Result<Answer, AllocError>
    requires rules { AreRulesIn schema.now rules.now }
    requires faults { AreRuleFaults schema.now rules.now (plain_instances (instances_of model.now)) faults.now }
    ensures { IfOk result (λ report. IsOfModel all schema.now rules.now (plain_instances (instances_of model.now)) report.outcome report.text.items) }
{
    let broken = by_where.broken.as_slice();
    let reported = told(faults, all);
    let reported_after = told_after(faults, broken, all);
    listener.hear_ruled(
        schema,
        file,
        Ruled {
            rules,
            by_where,
            faults: reported,
            broken: reported_after,
        },
    );
    if are_kept(faults, broken) {
        return report_without_faults(alloc, schema, model.instances());
    }
    let text = lines_of(
        alloc,
        schema,
        rules,
        reported,
        &by_where.rules,
        reported_after,
    )?;
    Ok(faulty(text))
}

/// The lines of faults, and after them those of broken rules WHERE.
fn lines_of(
    alloc: Global,
    schema: &Schema,
    rules: &Rules,
    faults: &[RuleFault],
    where_rules: &[WhereRule],
    broken: &[BrokenRule],
) -> Result<Vec<u8>, AllocError>
    requires { AreRulesIn schema.now rules.now }
    ensures { IfOk result (λ text. text.items ≡ rule_fault_lines schema.now rules.now faults.now ++ rule_broken_lines where_rules.now broken.now) }
{
    let mut text = render_rule_faults(alloc, schema, rules, faults)?;
    push_broken_rules(&mut text, where_rules, broken)?;
    Ok(text)
}

/// Whether no rule is broken.
fn are_kept(faults: &[RuleFault], broken: &[BrokenRule]) -> bool
    ensures { MatchBool result ((faults.now ≡ []) × (broken.now ≡ [])) ((faults.now ≢ []) ⊎ (broken.now ≢ [])) }
{
    if !faults.is_empty() {
        return false;
    }
    broken.is_empty()
}

/// The faults that a report tells.
fn told(faults: &[RuleFault], all: bool) -> &[RuleFault]
    ensures { result.now ≡ told all faults.entry.now }
{
    if all {
        return faults;
    }
    let (first, _) = faults.split_at(faults.len().min(1));
    first
}

/// The broken rules of WHERE that a report tells after other faults.
fn told_after<'f>(faults: &[RuleFault], broken: &'f [BrokenRule], all: bool) -> &'f [BrokenRule]
    ensures { result.now ≡ told_after all faults.now broken.entry.now }
{
    if all {
        return broken;
    }
    let wanted = if faults.is_empty() { 1 } else { 0 };
    let (first, _) = broken.split_at(broken.len().min(wanted));
    first
}

/// What is to be written of a model that keeps all rules.
fn report_without_faults(
    alloc: Global,
    schema: &Schema,
    instances: &[RawInstance<'_>],
) -> Result<Answer, AllocError>
    ensures outcome { IfOk result (λ report. report.outcome ≡ Complete) }
    ensures text { IfOk result (λ report. IsModelText schema.now (map plain_instance instances.now) report.text.items) }
{
    let counted = counts_with_key(alloc, instances, schema.hash_key())?;
    let text = model_text(alloc, schema, counted.as_slice())?;
    Ok(Answer {
        outcome: Outcome::Complete,
        text,
    })
}
