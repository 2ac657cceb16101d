//! Faults explained to whoever runs the program, and how far it is.

use crate::progress::{Progress, Stage};
use crate::rules::{
    broken_inverse, broken_unique, checked_count, counts_of, earlier_names, unchecked,
    unchecked_count, unevaluated_count,
};
use crate::words::Options;
use p21_explain::{
    Format, Lines, NamedInstances, RefusedSchema, Spellings, Subject, explain_device,
    explain_fault, explain_inverse_count, explain_not_unique, explain_passed_over,
    explain_schema_fault, painted, rule_summary, spell_names, summary, unsupported_forms,
};
use p21_express::SchemaError;
use p21_mend::{Change, mended};
use p21_render::{fault_line, schema_fault_line};
use p21_rule_run::{RuleFault, RuleListener, Ruled};
use p21_rule_text::Rules;
use p21_run::{Listener, Outcome};
use p21_schema::Schema;
use p21_tree::Fault;
use p21_where_findings::{
    CheckedFile, Stated, broken_summary, explain_broken, explain_undecided, explain_unevaluated,
};
use std::alloc::{AllocError, Global};
use std::io::{self, Write};
use std::mem::forget;
use std::str;
use std::time::Clock;

/// What is said of an input that is too long.
const TOO_LONG: &str =
    "a limit was exceeded: a schema has at most 16777216 bytes, a file 4294967296";

/// How the standard output is told of.
pub const STANDARD_OUTPUT: &str = "standard output";

/// How a run is told of: by the name of the program, the paths of the schema and the file, where `-` is the standard input, and the name of
/// what is written to.
#[derive(Clone, Copy, Debug)]
pub struct Names<'a> {
    pub program: &'a str,
    pub schema: &'a str,
    pub file: &'a str,
    pub output: &'a str,
}

/// Hears how far a run is, and its faults, and keeps what is to be said of these until the report is written. Where there is no memory
/// for it, less is said.
#[derive(Drop)]
pub struct Explainer<'a, C, P> {
    alloc: Global,
    progress: &'a Progress<C, P>,
    names: Names<'a>,
    /// How many faults are explained at most.
    most: usize,
    format: Format,
    /// Whether explanations have colours.
    is_colored: bool,
    /// Whether each form of a schema that is not supported is told of, and not only the first.
    is_all: bool,
    /// Whether faults are counted for the summary that takes the place of the report.
    is_summed: bool,
    /// Whether a device that failed is told of however few faults are explained.
    tells_devices: bool,
    /// Whether what the output goes to was closed.
    is_closed: bool,
    /// How many rules were checked, and how many were not.
    checked: u64,
    passed_over: u64,
    /// The text of the schema, where faults are explained.
    text: Vec<u8>,
    summary: String,
    said: String,
}

/// What a run looked at besides the attributes.
#[derive(Clone, Copy, Debug)]
pub(crate) struct LookedAt {
    /// Whether rules were checked.
    pub(crate) rules: bool,
    /// Whether an aggregate that names one instance twice was looked for.
    pub(crate) distinct: bool,
}

impl<'a, C: Clock, P: Write> Explainer<'a, C, P> {
    /// Nothing is heard yet.
    ///
    /// What it says of faults and devices is tested.
    pub fn new(
        alloc: Global,
        progress: &'a Progress<C, P>,
        names: Names<'a>,
        options: &Options,
    ) -> Explainer<'a, C, P> {
        Explainer {
            alloc,
            progress,
            names,
            most: options.explained,
            format: options.format,
            is_colored: options.is_colored,
            is_all: false,
            is_summed: false,
            tells_devices: false,
            is_closed: false,
            checked: 0,
            passed_over: 0,
            text: Vec::new(alloc),
            summary: String::new(alloc),
            said: String::new(alloc),
        }
    }

    /// The same, which tells of a device that failed however few faults are explained; but not of a standard output that was closed.
    pub fn with_devices(self) -> Explainer<'a, C, P> {
        Explainer {
            tells_devices: true,
            ..self
        }
    }

    /// The same, which tells of each form of a schema that is not supported, if that is wanted.
    pub(crate) fn with_all(self, is_all: bool) -> Explainer<'a, C, P> {
        Explainer { is_all, ..self }
    }

    /// The same, which makes a summary of the faults for the output, if that is wanted.
    pub(crate) fn with_summary(self, is_summed: bool) -> Explainer<'a, C, P> {
        Explainer { is_summed, ..self }
    }

    /// Whether the run ended since who read the standard output had closed it.
    pub fn is_closed(&self) -> bool {
        self.is_closed
    }

    /// The summary of the faults for the output; nothing where there is none.
    pub(crate) fn summary(&self) -> &str {
        self.summary.as_str()
    }

    /// Hears that the run found no fault, and what it looked at. Where faults are explained in text, this is told.
    pub(crate) fn hear_clean(&mut self, looked_at: LookedAt) {
        if self.most > 0 && self.format == Format::Text {
            let _ = self.add_clean(looked_at);
        }
    }

    /// Adds that there is no fault, and what was not looked at.
    fn add_clean(&mut self, looked_at: LookedAt) -> Result<(), AllocError> {
        let mut words = String::new(self.alloc);
        words.push_str("no fault found")?;
        if looked_at.rules {
            let rules = rules_word(self.checked);
            let checked = format!(in self.alloc; "; {} {rules} checked", self.checked)?;
            words.push_str(checked.as_str())?;
        }
        let rules = rules_word(self.passed_over);
        let passed_over = format!(in self.alloc; "{} {rules} (listed above)", self.passed_over)?;
        let mut left_out = Vec::new(self.alloc);
        if !looked_at.rules {
            left_out.push("rules (--rules)")?;
        }
        if self.passed_over > 0 {
            left_out.push(passed_over.as_str())?;
        }
        if !looked_at.distinct {
            left_out.push("instances named twice (--distinct)")?;
        }
        for (position, name) in left_out.iter().enumerate() {
            let is_first = position == 0;
            words.push_str(if is_first { "; not looked at: " } else { ", " })?;
            words.push_str(name)?;
        }
        self.add_line(self.input_name(), words.as_str())
    }

    /// What is to be said.
    pub fn into_said(self) -> String {
        self.said
    }

    /// Hears how the run ended, with the last errors of the schema, of the file and of the output. Where there was no memory nothing is said.
    pub fn hear_end(&mut self, outcome: Outcome, errors: [Option<io::Error>; 3]) {
        match outcome {
            Outcome::Complete | Outcome::Faulty | Outcome::SchemaRefused => {}
            Outcome::Device => self.hear_failure(errors),
            Outcome::Memory => self.said.clear(),
        }
    }

    /// Whether something is to be said of faults.
    fn is_heard(&self) -> bool {
        self.most > 0 || self.is_summed
    }

    /// Hears under which name the schema is read. It is told however few faults are explained.
    pub(crate) fn hear_renamed(&mut self, name: &[u8]) {
        let name = str::from_utf8(name).unwrap_or("");
        let schema = self.names.schema;
        if let Ok(words) = format!(in self.alloc;
            "it names the schema {name}; checked against {schema} as if it had that name"
        ) {
            let _ = self.add_line(self.names.file, words.as_str());
        }
    }

    /// Hears why nothing is written to a path. It is told however few faults are explained.
    pub fn hear_refusal(&mut self, path: &str, words: &str) {
        let _ = self.add_line(path, words);
    }

    /// Hears that a device failed.
    fn hear_failure(&mut self, errors: [Option<io::Error>; 3]) {
        self.is_closed = self.tells_devices
            && self.names.output == STANDARD_OUTPUT
            && errors[2].is_some_and(|it| it.kind() == io::ErrorKind::BrokenPipe);
        if (self.most > 0 || self.tells_devices) && !self.is_closed {
            let _ = self.add_failure(errors);
        }
    }

    /// How the file is told of.
    fn input_name(&self) -> &'a str {
        if self.names.file == "-" {
            "standard input"
        } else {
            self.names.file
        }
    }

    /// Adds which device failed: the last that answered an error.
    fn add_failure(&mut self, errors: [Option<io::Error>; 3]) -> Result<(), AllocError> {
        let [schema, file, output] = errors;
        match (schema, file, output) {
            (_, _, Some(error)) => self.add_error(self.names.output, error),
            (_, Some(error), None) => self.add_error(self.input_name(), error),
            (Some(error), None, None) => self.add_error(self.names.schema, error),
            (None, None, None) => self.add_line(self.names.program, TOO_LONG),
        }
    }

    /// Adds what the system says of a device.
    fn add_error(&mut self, path: &str, error: io::Error) -> Result<(), AllocError> {
        let words = format!(in self.alloc; "{error}")?;
        self.add_line(path, words.as_str())
    }

    fn add_line(&mut self, path: &str, words: &str) -> Result<(), AllocError> {
        let told = explain_device(self.alloc, path, words, self.format)?;
        say(&mut self.said, told)
    }

    /// Adds the first faults, and in text of several a summary.
    fn add(&mut self, schema: &Schema, file: &[u8], faults: &[Fault]) -> Result<(), AllocError> {
        let spellings = spell_names(self.alloc, &self.text, schema.declared())?;
        let explained = faults.get(..self.most).unwrap_or(faults);
        let subject = Subject {
            schema,
            spellings: &spellings,
            path: self.names.file,
            file,
            named: &NamedInstances::of_faults(self.alloc, file, explained)?,
        };
        if self.is_summed {
            self.summary = summary(self.alloc, subject, faults)?;
        }
        let mut lines = Lines::new(file);
        for fault in explained {
            let line = fault_line(self.alloc, fault)?;
            let told = explain_fault(
                self.alloc,
                subject,
                &mut lines,
                fault,
                kind_in(&line),
                self.format,
            )?;
            self.say_found(told)?;
        }
        if faults.len() > 1 && self.most > 0 && self.format == Format::Text && !self.is_summed {
            say(&mut self.said, summary(self.alloc, subject, faults)?)?;
        }
        Ok(())
    }

    /// A fault by a rule, explained.
    fn explained(
        &self,
        subject: Subject<'_>,
        lines: &mut Lines<'_>,
        rules: &Rules,
        fault: &RuleFault,
    ) -> Result<String, AllocError> {
        let (alloc, format) = (self.alloc, self.format);
        match fault {
            RuleFault::NotUnique(fault) => {
                if let Some(broken) = broken_unique(rules, fault) {
                    return explain_not_unique(alloc, subject, lines, &broken, format);
                }
            }
            RuleFault::InverseCount(fault) => {
                if let Some(broken) = broken_inverse(rules, fault) {
                    return explain_inverse_count(
                        alloc, subject, lines, &self.text, &broken, format,
                    );
                }
            }
        }
        Ok(String::new(alloc))
    }

    /// Adds the first faults by the rules, in text of several a summary, and the rules that were not checked.
    fn add_ruled(
        &mut self,
        schema: &Schema,
        file: &[u8],
        ruled: Ruled<'_>,
    ) -> Result<(), AllocError> {
        let spellings = spell_names(self.alloc, &self.text, schema.declared())?;
        let explained = ruled.faults.get(..self.most).unwrap_or(ruled.faults);
        let subject = Subject {
            schema,
            spellings: &spellings,
            path: self.names.file,
            file,
            named: &NamedInstances::of_names(
                self.alloc,
                file,
                earlier_names(self.alloc, explained)?,
            )?,
        };
        let mut lines = Lines::new(file);
        for fault in explained {
            let told = self.explained(subject, &mut lines, ruled.rules, fault)?;
            self.say_found(told)?;
        }
        let most = self.most.saturating_sub(explained.len());
        self.add_broken(subject, ruled, most)?;
        self.add_undecided(subject, ruled)?;
        let count = ruled.faults.len().saturating_add(ruled.broken.len());
        let is_told = count > 1 && self.most > 0 && self.format == Format::Text;
        if is_told || self.is_summed {
            self.add_rule_summary(schema, &spellings, ruled)?;
        }
        if self.most > 0 {
            self.add_passed_over(&spellings, ruled.rules)?;
            self.add_unevaluated(schema, &spellings, ruled)?;
        }
        Ok(())
    }

    /// Adds the first broken rules of WHERE, at most so many.
    fn add_broken(
        &mut self,
        subject: Subject<'_>,
        ruled: Ruled<'_>,
        most: usize,
    ) -> Result<(), AllocError> {
        let mut lines = Lines::new(subject.file);
        for broken in ruled.broken.get(..most).unwrap_or(ruled.broken) {
            if let Some(rule) = ruled.by_where.rules.get(broken.rule) {
                let stated = self.stated(subject.schema, subject.spellings);
                let told = explain_broken(
                    self.alloc,
                    checked_file(subject),
                    stated,
                    &mut lines,
                    rule,
                    *broken,
                    self.format,
                )?;
                self.say_found(told)?;
            }
        }
        Ok(())
    }

    /// Adds the first rules of WHERE that are not decided of instances.
    fn add_undecided(&mut self, subject: Subject<'_>, ruled: Ruled<'_>) -> Result<(), AllocError> {
        let undecided = ruled.by_where.undecided.as_slice();
        let mut lines = Lines::new(subject.file);
        for one in undecided.get(..self.most).unwrap_or(undecided) {
            if let Some(rule) = ruled.by_where.rules.get(one.rule) {
                let stated = self.stated(subject.schema, subject.spellings);
                let told = explain_undecided(
                    self.alloc,
                    checked_file(subject),
                    stated,
                    &mut lines,
                    rule,
                    *one,
                    self.format,
                )?;
                say(&mut self.said, told)?;
            }
        }
        let left = undecided.len().saturating_sub(self.most);
        if left > 0 && self.most > 0 && self.format == Format::Text {
            let more = format!(in self.alloc; "{left} more were not decided by rules.")?;
            self.add_line(subject.path, more.as_str())?;
        }
        Ok(())
    }

    /// The schema, as its rules of WHERE are told of.
    fn stated<'s>(&'s self, schema: &'s Schema, spellings: &'s Spellings) -> Stated<'s> {
        Stated {
            path: self.names.schema,
            text: &self.text,
            schema,
            spellings,
        }
    }

    /// Adds how many faults break each rule.
    fn add_rule_summary(
        &mut self,
        schema: &Schema,
        spellings: &Spellings,
        ruled: Ruled<'_>,
    ) -> Result<(), AllocError> {
        let counts = counts_of(self.alloc, ruled.rules, ruled.faults)?;
        let told = rule_summary(self.alloc, &self.text, spellings, counts)?;
        let stated = self.stated(schema, spellings);
        let rules = ruled.by_where.rules.as_slice();
        let behind = broken_summary(self.alloc, stated, rules, ruled.broken)?;
        if self.is_summed {
            self.summary = told;
            return self.summary.push_str(behind.as_str());
        }
        say(&mut self.said, told)?;
        say(&mut self.said, behind)
    }

    /// Adds the rules that were not checked.
    fn add_passed_over(&mut self, spellings: &Spellings, rules: &Rules) -> Result<(), AllocError> {
        for rule in &rules.passed_over {
            let (path, text) = (self.names.schema, self.text.as_slice());
            let rule = unchecked(rule);
            let told = explain_passed_over(self.alloc, path, text, spellings, &rule, self.format)?;
            say(&mut self.said, told)?;
        }
        Ok(())
    }

    /// Adds the rules of WHERE that are not evaluated.
    fn add_unevaluated(
        &mut self,
        schema: &Schema,
        spellings: &Spellings,
        ruled: Ruled<'_>,
    ) -> Result<(), AllocError> {
        for rule in &ruled.by_where.rules {
            if rule.in_the_way.is_some() {
                let stated = self.stated(schema, spellings);
                let mut lines = Lines::new(stated.text);
                let told = explain_unevaluated(self.alloc, stated, &mut lines, rule, self.format)?;
                say(&mut self.said, told)?;
            }
        }
        Ok(())
    }

    /// Adds the fault of a schema, and where all are told each form that is not supported.
    fn add_refused(&mut self, text: &[u8], error: &SchemaError) -> Result<(), AllocError> {
        let found = mended(self.alloc, text)?;
        let mut lines = Lines::new(text);
        self.add_schema_fault(&mut lines, &found.changes, error)?;
        if !self.is_all {
            return Ok(());
        }
        let forms = unsupported_forms(self.alloc, &found)?;
        self.add_other_forms(&mut lines, &found.changes, &forms, error)
    }

    /// Adds the forms that are not supported besides the fault, as many as are explained.
    fn add_other_forms(
        &mut self,
        lines: &mut Lines<'_>,
        changes: &[Change],
        forms: &[SchemaError],
        error: &SchemaError,
    ) -> Result<(), AllocError> {
        let mut left = self.most.saturating_sub(1);
        for form in forms {
            if left > 0 && form != error {
                left -= 1;
                self.add_schema_fault(lines, changes, form)?;
            }
        }
        Ok(())
    }

    /// Adds a fault of a schema, of which some is changed where it is mended.
    fn add_schema_fault(
        &mut self,
        lines: &mut Lines<'_>,
        changes: &[Change],
        error: &SchemaError,
    ) -> Result<(), AllocError> {
        let line = schema_fault_line(self.alloc, *error)?;
        let path = self.names.schema;
        let told = explain_schema_fault(
            self.alloc,
            RefusedSchema { path, changes },
            lines,
            error,
            kind_in(&line),
            self.format,
        )?;
        self.say_found(told)
    }

    /// Adds a paragraph on what was found, in colours where they are wanted.
    fn say_found(&mut self, told: String) -> Result<(), AllocError> {
        if self.is_colored && self.format == Format::Text {
            let bytes = painted(self.alloc, told.as_bytes())?;
            if let Ok(text) = str::from_utf8(&bytes) {
                return self.said.push_str(text);
            }
        }
        say(&mut self.said, told)
    }
}

impl<C: Clock, P: Write> Listener for Explainer<'_, C, P> {
    fn hear_schema(&mut self, text: &[u8]) {
        if self.is_heard() {
            let _ = self.text.extend_from_slice(text);
        }
    }

    fn hear_file(&mut self, file: &[u8]) {
        self.progress.begin(file);
    }

    fn hear_checked(&mut self) {
        self.progress.tell(Stage::Report);
    }

    fn hear_made(&mut self) {
        self.progress.remove();
    }

    fn hear(&mut self, schema: &Schema, file: &[u8], faults: &[Fault]) {
        if self.is_heard() {
            let _ = self.add(schema, file, faults);
        }
    }

    fn hear_refused(&mut self, text: &[u8], error: &SchemaError) {
        if self.most > 0 {
            let _ = self.add_refused(text, error);
        }
    }

    /// The program ends right after its run, and the system takes back what it holds.
    fn let_go<T: Drop>(&mut self, read: T) {
        forget(read);
    }
}

impl<C: Clock, P: Write> RuleListener for Explainer<'_, C, P> {
    fn hear_ruled(&mut self, schema: &Schema, file: &[u8], ruled: Ruled<'_>) {
        self.checked = checked_count(ruled);
        self.passed_over = unchecked_count(ruled.rules).saturating_add(unevaluated_count(ruled));
        if self.is_heard() {
            let _ = self.add_ruled(schema, file, ruled);
        }
    }
}

/// What so many rules are called.
fn rules_word(count: u64) -> &'static str {
    if count == 1 { "rule" } else { "rules" }
}

/// Adds a text to what is said.
fn say(said: &mut String, told: String) -> Result<(), AllocError> {
    said.push_str(told.as_str())
}

/// The name of a fault's kind in its line of a report: the word before `at`.
fn kind_in(line: &[u8]) -> &[u8] {
    let mut kind: &[u8] = b"";
    for word in line.split(|byte| *byte == b' ') {
        if word == b"at".as_slice() {
            return kind;
        }
        kind = word;
    }
    kind
}

/// The file that a fault is in.
fn checked_file<'a>(subject: Subject<'a>) -> CheckedFile<'a> {
    CheckedFile {
        path: subject.path,
        bytes: subject.file,
    }
}
