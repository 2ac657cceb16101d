//! Reading a source as a whole file or as a single instance.

ghost use Rattle.std.specs.Prelude.{ℕ, map, IfOk, IfErr};
ghost use Rattle.p21_tree.specs.Views.{plain_instance, plain_preface};
ghost use Rattle.p21_tree.specs.Sentence.{IsFile, IsPiece, deepest};
ghost use Rattle.p21_tree.specs.Parts.{Files, Pieces};
ghost use Rattle.p21_tree.specs.Progress.{Finishes, Fails};
ghost use Rattle.p21_tree.specs.Texts.{OnGrammar};

use crate::data_section::{instance, instances};
use crate::faults::TreeError;
use crate::header_section::preface;
use crate::headers::Preface;
use crate::instances::RawInstance;
use crate::nest::Nest;
use crate::source::Source;
use crate::terminals::Terminal;
use crate::tokens::{expect, refused, token};
use p21_text::Token;
use std::alloc::Global;

/// Reads a whole file.
pub fn whole<'a>(
    alloc: Global,
    source: Source<'a>,
) -> Result<(Preface<'a>, Vec<RawInstance<'a>>), TreeError>
    ensures ok { IfOk result (λ r. Finishes (λ ts. IsFile deepest ts (record { opening = plain_preface r.0; instances = map plain_instance r.1.items })) source.entry 0) }
    ensures fault { IfErr result (λ e. OnGrammar e (Fails Files 64 source.entry 0)) }
{
    let mut nest = Nest::new(alloc);
    let (opening, data_at) = preface(alloc, &mut nest, source)?;
    let body = instances(alloc, &mut nest, source, data_at)?;
    Ok((opening, body))
}

/// Reads an instance that takes the whole text.
pub fn single<'a>(
    alloc: Global,
    nest: &mut Nest<'a>,
    source: Source<'a>,
) -> Result<RawInstance<'a>, TreeError>
    ensures ok { IfOk result (λ r. Finishes (λ ts. IsPiece deepest ts (plain_instance r)) source.entry 0) }
    ensures fault { IfErr result (λ e. OnGrammar e (Fails Pieces 64 source.entry 0)) }
{
    let lexed = token(source, 0);
    let Token::Name(name) = lexed.token else {
        return Err(TreeError::Grammar(refused(source, lexed)));
    };
    let (read, after) = instance(alloc, nest, source, name, lexed.start, lexed.after)?;
    let _end = expect(source, after, Terminal::End)?;
    Ok(read)
}
