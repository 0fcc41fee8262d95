// Certificates as bytes.
ghost use Rattle.std.specs.Prelude.{◌≡◌, ◌++◌, ◌∷◌, [], map, IfOk, OnOk};
ghost use Rattle.cnf.specs.Dimacs.{text_of_lines};
ghost use Rattle.certificate.specs.Certificates.{certificate_text, derivation_head, line_text, numbers_of_steps};
ghost use Rattle.certificate.specs.Numbers.{numbers_text};

use cnf::{Derivation, DerivationLine, Formula, push_clause, push_dimacs, push_number};
use fq_core::Memory;
use std::alloc::Global;

/// The certificate of a formula and a derivation over it.
pub fn write_certificate(
    alloc: Global,
    formula: &Formula,
    derivation: &Derivation,
) -> Result<Vec<u8>, Memory>
    ensures { IfOk result (λ text. text.items ≡ certificate_text formula.now derivation.now) }
{
    let mut text = Vec::from_slice(alloc, b"fshell certificate 1\n")?;
    push_dimacs(&mut text, formula)?;
    push_derivation_head(&mut text, derivation.lines.len() as u64)?;
    push_lines(&mut text, derivation.lines.as_slice())?;
    Ok(text)
}

fn push_derivation_head(text: &mut Vec<u8>, count: u64) -> Result<(), Memory>
    ensures { OnOk result (text.new.items ≡ text.old.items ++ (derivation_head count ++ 10 ∷ [])) }
{
    text.extend_from_slice(b"derivation ")?;
    push_number(text, count)?;
    text.push(b'\n')?;
    Ok(())
}

fn push_lines(text: &mut Vec<u8>, lines: &[DerivationLine]) -> Result<(), Memory>
    ensures { OnOk result (text.new.items ≡ text.old.items ++ text_of_lines (map line_text lines.now)) }
{
    for line in lines {
        push_line(text, line)?;
        text.push(b'\n')?;
    }
    Ok(())
}

// A line: its clause and 0, the first antecedent, antecedent and pivot of each step, and 0.
fn push_line(text: &mut Vec<u8>, line: &DerivationLine) -> Result<(), Memory>
    ensures { OnOk result (text.new.items ≡ text.old.items ++ line_text line.now) }
{
    push_clause(text, &line.clause)?;
    text.push(b' ')?;
    push_number(text, line.first)?;
    text.push(b' ')?;
    push_steps(text, line.steps.as_slice())?;
    text.push(b'0')?;
    Ok(())
}

fn push_steps(text: &mut Vec<u8>, steps: &[(u32, i32)]) -> Result<(), Memory>
    ensures { OnOk result (text.new.items ≡ text.old.items ++ numbers_text (numbers_of_steps steps.now)) }
{
    for step in steps {
        push_number(text, step.0)?;
        text.push(b' ')?;
        push_number(text, step.1)?;
        text.push(b' ')?;
    }
    Ok(())
}
