//! A run of a Main of the first form, written as it is made.
ghost use Rattle.std.specs.Prelude.{◌≡◌, ◌++◌, ◌∷◌, [], ℕ, ◌+◌, ◌-◌, ◌^◌, ◌<◌, min, pos, nat_lt, IsTrue, OnOk, OnErr, IfOk, List, flat_map, sum_by, unwrap_or};
ghost use Rattle.std.specs.Io.KnownBytes.{Appends};
ghost use Rattle.outside.specs.Causes.{CountsFault};
ghost use Rattle.channel_run.specs.FirstLines.{operand_number, sum_number, item_text, line_text, items_text, set_number, numbers_after, sum_steps, item_steps, line_steps, lines_text, lines_end, reason_of, asked_by};
ghost use Rattle.channel_run.specs.FirstLocals.{numbers_in};
ghost use Rattle.channel_run.specs.FirstMeaning.{Integer, signed_sum, shown};
ghost use Rattle.first_form.specs.FirstNames.{names_set};
ghost use Rattle.channel_run.specs.Answer.{first_text};
ghost use Rattle.channel_run.specs.FirstText.{first_report};
ghost use Rattle.trace_report.specs.TraceText.{print_line, end_line};
ghost use Rattle.chan_values.specs.declared.end_reason.EndReason.TheVariants as EndReason;
ghost use Rattle.channel_run.specs.Output.{AppendsPrefix};

use crate::output::{write_report_line, write_trace_line};
use crate::script::Script;
use chan_values::{EndReason, Event, NoMemory, Text};
use first_form::tree::{FirstMain, Line, Operand, PrintItem, Sign, Sum};
use outside::faults::FilesFault;
use outside::streams::Sink;
use std::alloc::Global;
use std::collections::BTreeMap;
use trace_report::{ReportLine, TraceLine};

/// The number of the actor that runs Main.
const MAIN_ACTOR: u32 = 1;

fn local_number(locals: &BTreeMap<&str, i32>, name: &str) -> i32
    ensures { result ≡ numbers_in locals.now name.now }
{
    match locals.get(name) {
        Some(number) => *number,
        None => 0,
    }
}

fn operand_number(locals: &BTreeMap<&str, i32>, operand: &Operand) -> i32
    ensures { result ≡ operand_number (numbers_in locals.now) operand.now }
{
    match operand {
        Operand::Number(number) => *number,
        Operand::Name(name) => local_number(locals, name.as_str()),
    }
}

fn signed_sum(sign: Sign, left: i32, right: i32) -> i32
    ensures { result ≡ signed_sum sign left right }
{
    match sign {
        Sign::Plus => left.wrapping_add(right),
        Sign::Minus => left.wrapping_sub(right),
    }
}

fn sum_number(locals: &BTreeMap<&str, i32>, sum: &Sum) -> i32
    ensures { result ≡ sum_number (numbers_in locals.now) sum.now }
{
    let mut number = operand_number(locals, &sum.first);
    for term in sum.more.as_slice() {
        number = signed_sum(term.sign, number, operand_number(locals, &term.operand));
    }
    number
}

fn push_number(alloc: Global, number: i32, text: &mut Text) -> Result<(), NoMemory>
    ensures { OnOk result (text.new ≡ text.old ++ shown (Integer number)) }
{
    if number >= 0 {
        text.push_str(" ")?;
    }
    let Ok(digits) = number.to_string(alloc) else {
        return Err(NoMemory);
    };
    text.push_str(digits.as_str())
}

fn push_item(
    alloc: Global,
    locals: &BTreeMap<&str, i32>,
    item: &PrintItem,
    text: &mut Text,
) -> Result<(), NoMemory>
    ensures { OnOk result (text.new ≡ text.old ++ item_text (numbers_in locals.now) item.now) }
{
    match item {
        PrintItem::Words(words) => text.push_str(words.as_str()),
        PrintItem::Sum(sum) => push_number(alloc, sum_number(locals, sum), text),
    }
}

fn items_text(
    alloc: Global,
    locals: &BTreeMap<&str, i32>,
    items: &[PrintItem],
) -> Result<Text, NoMemory>
    ensures { IfOk result (λ text. text ≡ items_text (numbers_in locals.now) items.now) }
{
    let mut text = Text::new(alloc);
    for item in items {
        push_item(alloc, locals, item, &mut text)?;
    }
    Ok(text)
}

// Numbers of steps stop at 2^64 - 1.
fn sum_steps(sum: &Sum) -> u64
    ensures { result ≡ min (sum_steps sum.now) (2 ^ 64 - 1) }
{
    let signs = sum.more.len() as u64;
    signs.saturating_mul(2).saturating_add(1)
}

fn item_steps(item: &PrintItem) -> u64
    ensures { result ≡ min (item_steps item.now) (2 ^ 64 - 1) }
{
    match item {
        PrintItem::Words(_) => 1,
        PrintItem::Sum(sum) => sum_steps(sum),
    }
}

fn line_steps(line: &Line) -> u64
    ensures { result ≡ min (line_steps line.now) (2 ^ 64 - 1) }
{
    match line {
        Line::Assign(_, sum) => sum_steps(sum).saturating_add(1),
        Line::Print(items) => items_steps(items.as_slice()).saturating_add(1),
    }
}

fn items_steps(items: &[PrintItem]) -> u64
    ensures { result ≡ min (sum_by item_steps items.now) (2 ^ 64 - 1) }
{
    let mut steps: u64 = 0;
    for item in items {
        steps = steps.saturating_add(item_steps(item));
    }
    steps
}

fn run_print<O: Sink>(
    alloc: Global,
    locals: &BTreeMap<&str, i32>,
    items: &[PrintItem],
    out: &mut O,
) -> Result<(), FilesFault>
    ensures whole { OnOk result
        (Appends (O.held out.old) (O.held out.new) (print_line 1 (items_text (numbers_in locals.now) items.now))) }
    ensures front { OnErr result
        (AppendsPrefix (O.held out.old) (O.held out.new) (print_line 1 (items_text (numbers_in locals.now) items.now))) }
    ensures cause { CountsFault (O.faults out.old) (O.faults out.new) result }
{
    match items_text(alloc, locals, items) {
        Ok(text) => {
            let line = TraceLine::Print {
                actor: MAIN_ACTOR,
                text: text.as_str(),
            };
            write_trace_line(alloc, &line, out)
        }
        Err(_) => Err(FilesFault::NoMemory),
    }
}

fn assign<'a>(
    locals: &mut BTreeMap<&'a str, i32>,
    name: &'a str,
    number: i32,
) -> Result<(), NoMemory>
    ensures { OnOk result
        (numbers_in locals.new ≡ set_number (numbers_in locals.old) name.now number) }
{
    match locals.insert(name, number) {
        Ok(_) => Ok(()),
        Err(_) => Err(NoMemory),
    }
}

fn run_line<'a, O: Sink>(
    alloc: Global,
    locals: &mut BTreeMap<&'a str, i32>,
    line: &'a Line,
    out: &mut O,
) -> Result<(), FilesFault>
    ensures numbers { OnOk result
        (numbers_in locals.new ≡ numbers_after (numbers_in locals.old) line.now) }
    ensures whole { OnOk result
        (Appends (O.held out.old) (O.held out.new) (line_text (numbers_in locals.old) line.now)) }
    ensures front { OnErr result
        (AppendsPrefix (O.held out.old) (O.held out.new) (line_text (numbers_in locals.old) line.now)) }
    ensures cause { CountsFault (O.faults out.old) (O.faults out.new) result }
{
    match line {
        Line::Assign(name, sum) => {
            let number = sum_number(locals, sum);
            match assign(locals, name.as_str(), number) {
                Ok(()) => Ok(()),
                Err(_) => Err(FilesFault::NoMemory),
            }
        }
        Line::Print(items) => run_print(alloc, locals, items.as_slice(), out),
    }
}

// Runs the lines as far as the steps go. Answers whether the body ended.
fn run_lines<O: Sink>(
    alloc: Global,
    lines: &[Line],
    steps: u64,
    out: &mut O,
) -> Result<bool, FilesFault>
    requires { steps < 2 ^ 32 }
    ensures ended { IfOk result (λ ended. ended ≡ lines_end steps lines.now) }
    ensures whole { OnOk result
        (Appends (O.held out.old) (O.held out.new) (lines_text steps (λ _. pos 0) lines.now)) }
    ensures front { OnErr result
        (AppendsPrefix (O.held out.old) (O.held out.new) (lines_text steps (λ _. pos 0) lines.now)) }
    ensures cause { CountsFault (O.faults out.old) (O.faults out.new) result }
{
    let mut locals = BTreeMap::new(alloc);
    let mut left = steps;
    for line in lines {
        let needed = line_steps(line);
        if needed > left {
            return Ok(false);
        }
        left -= needed;
        run_line(alloc, &mut locals, line, out)?;
    }
    if left == 0 {
        return Ok(false);
    }
    write_trace_line(alloc, &TraceLine::Ended { actor: MAIN_ACTOR }, out)?;
    Ok(true)
}

fn asked_by(event: &Event) -> u64
    ensures steps { result ≡ asked_by event.now }
    ensures small { result < 2 ^ 32 }
{
    match event {
        Event::Turn(actor, steps) if *actor == MAIN_ACTOR => u64::from(*steps),
        Event::Round(steps) => u64::from(*steps),
        _ => 0,
    }
}

// How many steps the events ask Main's actor for, but no more than one over the bound.
fn steps_asked(events: &[Event], bound: u32) -> u64
    ensures { result ≡ min (sum_by asked_by events.now) (bound + 1) }
{
    let most = bound as u64 + 1;
    let mut asked: u64 = 0;
    for event in events {
        asked = most.min(asked + asked_by(event));
    }
    asked
}

fn end_reason(ended: bool, used_up: bool) -> EndReason
    ensures { result ≡ unwrap_or (reason_of ended used_up) EndReason.Script }
{
    if ended {
        EndReason::Main
    } else if used_up {
        EndReason::Steps
    } else {
        EndReason::Script
    }
}

// Writes the end line and the report.
fn write_last_lines<O: Sink>(
    alloc: Global,
    reason: EndReason,
    out: &mut O,
) -> Result<(), FilesFault>
    ensures whole { OnOk result (Appends (O.held out.old) (O.held out.new) (end_line reason ++ first_report)) }
    ensures front { OnErr result (AppendsPrefix (O.held out.old) (O.held out.new) (end_line reason ++ first_report)) }
    ensures cause { CountsFault (O.faults out.old) (O.faults out.new) result }
{
    write_trace_line(alloc, &TraceLine::RunEnd(reason), out)?;
    let node = ReportLine::Node {
        node: 1,
        kind: "Node",
        owner: 0,
        parent: None,
        children: &[],
    };
    write_report_line(alloc, &node, out)
}

/// Runs a Main under the events of a script, and writes the transcript as it is made. No more than `bound` steps are made. The
/// run stops before the first key or bad line of the script, and then has no end line and no report. After an `Err` a front of
/// the text was written.
pub(crate) fn run_first<O: Sink>(
    alloc: Global,
    main: &FirstMain,
    script: &Script,
    bound: u32,
    out: &mut O,
) -> Result<(), FilesFault>
    requires { IsTrue (names_set [] main.now.lines) }
    ensures whole { OnOk result
        (Appends (O.held out.old) (O.held out.new) (first_text main.now script.now bound)) }
    ensures front { AppendsPrefix (O.held out.old) (O.held out.new)
        (first_text main.now script.now bound) }
    ensures cause { CountsFault (O.faults out.old) (O.faults out.new) result }
{
    let asked = steps_asked(script.built_events(), bound);
    let most = bound as u64;
    let ended = run_lines(alloc, main.lines.as_slice(), asked.min(most), out)?;
    if script.is_whole() {
        write_last_lines(alloc, end_reason(ended, asked > most), out)
    } else {
        Ok(())
    }
}
