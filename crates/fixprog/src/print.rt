//! The text of a program's script.

ghost use Rattle.std.specs.Prelude.{◌≡◌, ◌<◌, ◌≤◌, ◌++◌, codes, ◌∷◌, true, All, Some, IfOk, OnOk};
ghost use Rattle.std.specs.List.{flat_map};
ghost use Rattle.std.specs.Fmt.{decimal, signed_decimal};
ghost use Rattle.std.specs.Str.Parse.{digits_value};
ghost use Rattle.fixprog.specs.Grammar as grammar;
ghost use Rattle.fixprog.specs.Turned as spec;
ghost use Rattle.fixprog.specs.Formats as formats;
ghost use Rattle.fixprog.specs.Execution as execution;
ghost use Rattle.fixprog.specs.Printed.{formula_text, script_text, inputs_written, outputs_written};
ghost use Rattle.fixprog.specs.Printed.{IsPrintable, IsInputPrintable, IsShort};
ghost use Rattle.fixprog.specs.Views.{operand_of, operation_of, bound_of, input_of, step_of};
ghost use Rattle.fixprog.specs.Views.{way_of};

use crate::format::{Format, format_of};
use crate::program::{Bound, Digits, Input, Mark, Operand, Operation, Program, Step, Way};
use script_words::digits::number_below;
use std::alloc::{AllocError, Global};

// The format of a text whose numbers are within their limits.
fn format_in(text: &[u8]) -> Format
    requires { formats.is_format (formats.format_of text.now) ≡ true }
    ensures format { result ≡ formats.format_of text.now }
    ensures width { 0 < result.width }
    ensures narrow { result.width ≤ 60 }
{
    match format_of(text) {
        Some(format) => format,
        None => unreachable!(),
    }
}

fn number(alloc: Global, page: &mut Vec<u8>, n: i64) -> Result<(), AllocError>
    ensures { OnOk result (page.new.items ≡ page.old.items ++ signed_decimal n) }
{
    let text = format!(in alloc; "{n}")?;
    page.extend_from_slice(text.as_bytes())
}

fn last_place(alloc: Global, page: &mut Vec<u8>, format: Format) -> Result<(), AllocError>
    ensures { OnOk result (page.new.items ≡ page.old.items ++ spec.last_place_text format) }
{
    number(alloc, page, format.last_place())
}

fn operand(page: &mut Vec<u8>, operand: Operand<'_>) -> Result<(), AllocError>
    ensures { OnOk result (page.new.items ≡ page.old.items
        ++ spec.operand_text (operand_of operand.entry)) }
{
    match operand {
        Operand::Named(text) => page.extend_from_slice(text),
        Operand::Given(text) => page.extend_from_slice(text),
    }
}

fn both(page: &mut Vec<u8>, a: Operand<'_>, sign: &[u8], b: Operand<'_>) -> Result<(), AllocError>
    ensures { OnOk result (page.new.items
        ≡ page.old.items ++ (spec.operand_text (operand_of a.entry)
        ++ (sign.now ++ spec.operand_text (operand_of b.entry)))) }
{
    operand(page, a)?;
    page.extend_from_slice(sign)?;
    operand(page, b)
}

// A shift is a product with a power of two.
fn shift(
    alloc: Global,
    page: &mut Vec<u8>,
    a: Operand<'_>,
    power: &[u8],
    digits: Digits<'_>,
) -> Result<(), AllocError>
    requires { digits_value 10 digits.text.now < 64 }
    ensures { OnOk result (page.new.items
        ≡ page.old.items ++ (spec.operand_text (operand_of a.entry)
        ++ (power.now ++ decimal (digits_value 10 digits.entry.text.now)))) }
{
    operand(page, a)?;
    page.extend_from_slice(power)?;
    let places = match number_below(64, digits.text) {
        Some(places) => places,
        None => unreachable!(),
    };
    let text = format!(in alloc; "{places}")?;
    page.extend_from_slice(text.as_bytes())
}

fn operation(alloc: Global, page: &mut Vec<u8>, operation: Operation<'_>) -> Result<(), AllocError>
    requires { IsShort (operation_of operation) }
    ensures { OnOk result (page.new.items ≡ page.old.items
        ++ spec.operation_text (operation_of operation.entry)) }
{
    match operation {
        Operation::Copy(a) => operand(page, a),
        Operation::Negation(a) => {
            page.extend_from_slice(b"-")?;
            operand(page, a)
        }
        Operation::Sum(a, b) => both(page, a, b" + ", b),
        Operation::Difference(a, b) => both(page, a, b" - ", b),
        Operation::Product(a, b) => both(page, a, b" * ", b),
        Operation::Right(a, k) => shift(alloc, page, a, b" * 1b-", k),
        Operation::Left(a, k) => shift(alloc, page, a, b" * 1b", k),
    }
}

fn way(page: &mut Vec<u8>, way: Way<'_>) -> Result<(), AllocError>
    ensures { OnOk result (page.new.items ≡ page.old.items
        ++ execution.way_text (way_of way.entry)) }
{
    match way {
        Way::Called(text) => page.extend_from_slice(text),
        _ => Ok(()),
    }
}

// `NAME = fixed<L,DIR`
fn operator(alloc: Global, page: &mut Vec<u8>, step: Step<'_>) -> Result<(), AllocError>
    requires { formats.is_format (formats.format_of step.format.now) ≡ true }
    ensures { OnOk result (page.new.items ≡ page.old.items
        ++ (step.entry.name.now ++ (codes " = fixed<"
        ++ (spec.last_place_text (formats.format_of step.entry.format.now)
        ++ (codes "," ++ execution.way_text (way_of step.entry.way)))))) }
{
    page.extend_from_slice(step.name)?;
    page.extend_from_slice(b" = fixed<")?;
    last_place(alloc, page, format_in(step.format))?;
    page.extend_from_slice(b",")?;
    way(page, step.way)
}

fn step(alloc: Global, page: &mut Vec<u8>, step: Step<'_>) -> Result<(), AllocError>
    requires { IsPrintable (step_of step) }
    ensures { OnOk result (page.new.items ≡ page.old.items ++ spec.step_line (step_of step.entry)) }
{
    operator(alloc, page, step)?;
    page.extend_from_slice(b">(")?;
    operation(alloc, page, step.operation)?;
    page.extend_from_slice(b");\n")
}

fn bound(page: &mut Vec<u8>, bound: Bound<'_>) -> Result<(), AllocError>
    ensures { OnOk result (page.new.items ≡ page.old.items
        ++ spec.bound_text (bound_of bound.entry)) }
{
    match bound.mark {
        Mark::Unmarked => {}
        Mark::Plus => page.extend_from_slice(b"+")?,
        Mark::Minus => page.extend_from_slice(b"-")?,
    }
    page.extend_from_slice(bound.text)
}

fn bounds(page: &mut Vec<u8>, lower: Bound<'_>, upper: Bound<'_>) -> Result<(), AllocError>
    ensures { OnOk result (page.new.items ≡ page.old.items
        ++ (spec.bound_text (bound_of lower.entry)
        ++ (codes ", " ++ spec.bound_text (bound_of upper.entry)))) }
{
    bound(page, lower)?;
    page.extend_from_slice(b", ")?;
    bound(page, upper)
}

fn input_range(page: &mut Vec<u8>, input: Input<'_>) -> Result<(), AllocError>
    ensures { OnOk result (page.new.items
        ≡ page.old.items ++ spec.range_text input.entry.name.now
        (spec.bound_text (bound_of input.entry.lower))
        (spec.bound_text (bound_of input.entry.upper))) }
{
    page.extend_from_slice(input.name)?;
    page.extend_from_slice(b" in [")?;
    bounds(page, input.lower, input.upper)?;
    page.extend_from_slice(b"]")
}

// `@FIX(NAME,L)`
fn multiple(alloc: Global, page: &mut Vec<u8>, input: Input<'_>) -> Result<(), AllocError>
    requires { formats.is_format (formats.format_of input.format.now) ≡ true }
    ensures { OnOk result (page.new.items ≡ page.old.items
        ++ (codes " /\\ @FIX(" ++ (input.entry.name.now ++ (codes ","
        ++ (spec.last_place_text (formats.format_of input.entry.format.now) ++ codes ")"))))) }
{
    page.extend_from_slice(b" /\\ @FIX(")?;
    page.extend_from_slice(input.name)?;
    page.extend_from_slice(b",")?;
    last_place(alloc, page, format_in(input.format))?;
    page.extend_from_slice(b")")
}

fn input(alloc: Global, page: &mut Vec<u8>, input: Input<'_>) -> Result<(), AllocError>
    requires { IsInputPrintable (input_of input) }
    ensures { OnOk result (page.new.items ≡ page.old.items
        ++ spec.input_text (input_of input.entry)) }
{
    input_range(page, input)?;
    multiple(alloc, page, input)
}

fn word(alloc: Global, page: &mut Vec<u8>, format: Format, word: i64) -> Result<(), AllocError>
    ensures { OnOk result (page.new.items ≡ page.old.items ++ spec.word_text format word) }
{
    number(alloc, page, word)?;
    page.extend_from_slice(b"b")?;
    last_place(alloc, page, format)
}

// The least word and the greatest.
fn words(alloc: Global, page: &mut Vec<u8>, format: Format) -> Result<(), AllocError>
    requires width { 0 < format.width }
    requires narrow { format.width ≤ 60 }
    ensures { OnOk result (page.new.items ≡ page.old.items
        ++ (spec.word_text format (formats.least format)
        ++ (codes ", " ++ spec.word_text format (formats.greatest format)))) }
{
    word(alloc, page, format, format.least())?;
    page.extend_from_slice(b", ")?;
    word(alloc, page, format, format.greatest())
}

fn format_goal(alloc: Global, page: &mut Vec<u8>, step: Step<'_>) -> Result<(), AllocError>
    requires { IsPrintable (step_of step) }
    ensures { OnOk result (page.new.items ≡ page.old.items
        ++ spec.format_goal (step_of step.entry)) }
{
    page.extend_from_slice(step.name)?;
    page.extend_from_slice(b" in [")?;
    words(alloc, page, format_in(step.format))?;
    page.extend_from_slice(b"]")
}

fn output_goal(page: &mut Vec<u8>, name: &[u8]) -> Result<(), AllocError>
    ensures { OnOk result (page.new.items ≡ page.old.items ++ spec.output_goal name.now) }
{
    page.extend_from_slice(name)?;
    page.extend_from_slice(b" in ?")
}

fn lines(alloc: Global, page: &mut Vec<u8>, steps: &[Step<'_>]) -> Result<(), AllocError>
    requires { All (λ x. IsPrintable (step_of x)) steps.now }
    ensures { OnOk result (page.new.items ≡ page.old.items
        ++ flat_map (λ x. spec.step_line (step_of x)) steps.now) }
{
    for i in 0..steps.len() {
        step(alloc, page, steps[i])?;
    }
    Ok(())
}

// Each behind a sign.
fn more_inputs(alloc: Global, page: &mut Vec<u8>, inputs: &[Input<'_>]) -> Result<(), AllocError>
    requires { All (λ x. IsInputPrintable (input_of x)) inputs.now }
    ensures { OnOk result (page.new.items ≡ page.old.items
        ++ flat_map (λ x. codes " /\\ " ++ spec.input_text (input_of x)) inputs.now) }
{
    for i in 0..inputs.len() {
        page.extend_from_slice(b" /\\ ")?;
        input(alloc, page, inputs[i])?;
    }
    Ok(())
}

fn inputs_from(
    alloc: Global,
    page: &mut Vec<u8>,
    first: Input<'_>,
    rest: &[Input<'_>],
) -> Result<(), AllocError>
    requires first { IsInputPrintable (input_of first) }
    requires rest { All (λ x. IsInputPrintable (input_of x)) rest.now }
    ensures { OnOk result (page.new.items ≡ page.old.items
        ++ inputs_written (first.entry ∷ rest.now)) }
{
    input(alloc, page, first)?;
    more_inputs(alloc, page, rest)?;
    page.extend_from_slice(b" -> ")
}

fn hypotheses(alloc: Global, page: &mut Vec<u8>, inputs: &[Input<'_>]) -> Result<(), AllocError>
    requires { All (λ x. IsInputPrintable (input_of x)) inputs.now }
    ensures { OnOk result (page.new.items ≡ page.old.items ++ inputs_written inputs.now) }
{
    match inputs {
        [first, rest @ ..] => inputs_from(alloc, page, *first, rest),
        [] => Ok(()),
    }
}

// Each before a sign.
fn step_goals(alloc: Global, page: &mut Vec<u8>, steps: &[Step<'_>]) -> Result<(), AllocError>
    requires { All (λ x. IsPrintable (step_of x)) steps.now }
    ensures { OnOk result (page.new.items ≡ page.old.items
        ++ flat_map (λ x. spec.format_goal (step_of x) ++ codes " /\\ ") steps.now) }
{
    for i in 0..steps.len() {
        format_goal(alloc, page, steps[i])?;
        page.extend_from_slice(b" /\\ ")?;
    }
    Ok(())
}

// Each behind a sign.
fn more_outputs(page: &mut Vec<u8>, outputs: &[&[u8]]) -> Result<(), AllocError>
    ensures { OnOk result (page.new.items ≡ page.old.items
        ++ flat_map (λ t. codes " /\\ " ++ spec.output_goal t.now) outputs.now) }
{
    for i in 0..outputs.len() {
        page.extend_from_slice(b" /\\ ")?;
        output_goal(page, outputs[i])?;
    }
    Ok(())
}

fn outputs_from(page: &mut Vec<u8>, first: &[u8], rest: &[&[u8]]) -> Result<(), AllocError>
    ensures { OnOk result (page.new.items ≡ page.old.items
        ++ (spec.output_goal first.now ++ flat_map (λ t. codes " /\\ " ++ spec.output_goal t.now)
        rest.now)) }
{
    output_goal(page, first)?;
    more_outputs(page, rest)
}

fn output_goals(page: &mut Vec<u8>, outputs: &[&[u8]]) -> Result<(), AllocError>
    ensures { OnOk result (page.new.items ≡ page.old.items ++ outputs_written outputs.now) }
{
    match outputs {
        [first, rest @ ..] => outputs_from(page, first, rest),
        [] => Ok(()),
    }
}

fn formula(alloc: Global, page: &mut Vec<u8>, program: &Program<'_>) -> Result<(), AllocError>
    requires inputs { All (λ x. IsInputPrintable (input_of x)) program.now.inputs.items }
    requires steps { All (λ x. IsPrintable (step_of x)) program.now.steps.items }
    ensures { OnOk result (page.new.items ≡ page.old.items ++ formula_text program.now) }
{
    hypotheses(alloc, page, program.inputs.as_slice())?;
    step_goals(alloc, page, program.steps.as_slice())?;
    output_goals(page, program.outputs.as_slice())
}

fn script(alloc: Global, page: &mut Vec<u8>, program: &Program<'_>) -> Result<(), AllocError>
    requires inputs { All (λ x. IsInputPrintable (input_of x)) program.now.inputs.items }
    requires steps { All (λ x. IsPrintable (step_of x)) program.now.steps.items }
    ensures { OnOk result (page.new.items ≡ page.old.items ++ script_text program.now) }
{
    lines(alloc, page, program.steps.as_slice())?;
    page.extend_from_slice(b"{ ")?;
    formula(alloc, page, program)?;
    page.extend_from_slice(b" }\n")
}

/// The script of a program, byte by byte.
pub fn script_of(alloc: Global, program: &Program<'_>) -> Result<Vec<u8>, AllocError>
    requires inputs { All (λ x. IsInputPrintable (input_of x)) program.now.inputs.items }
    requires steps { All (λ x. IsPrintable (step_of x)) program.now.steps.items }
    ensures { IfOk result (λ text. text.items ≡ script_text program.now) }
{
    let mut page = Vec::new(alloc);
    script(alloc, &mut page, program)?;
    Ok(page)
}
