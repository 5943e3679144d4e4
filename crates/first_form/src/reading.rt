//! The reading of a source file of the first form from its tokens.
ghost use Rattle.std.specs.Prelude.{◌≡◌, ◌↔◌, List, [], Some, IsTrue, IfOk, IfSome, codes};
ghost use Rattle.brs_tokens.specs.Tok.{Tok};
ghost use Rattle.first_form.specs.declared.tree.FirstMain.{FirstMain};
ghost use Rattle.first_form.specs.FirstForm as form;
ghost use Rattle.first_form.specs.FirstForm.{IsFirst};
ghost use Rattle.first_form.specs.FirstNames.{names_set};
ghost use Rattle.first_form.specs.FirstReading as reading;
ghost use Rattle.first_form.specs.FirstReading.{first_of};
ghost use Rattle.first_form.specs.FirstStop.{Reads, ReadsItems};

use crate::cursor::{Cursor, Stop};
use crate::names::are_names_good;
use crate::repeat::many;
use crate::tree::{FirstMain, Line, Operand, PrintItem, Sign, Sum, Term};
use crate::words::{name_of, operand_of, sign_of, words_of};
use brs_tokens::TokenList;
use chan_values::{NoMemory, Text};
use sqlite_items::Items;
use std::alloc::Global;

/// The tree of a token list is the one that the grammar gives it, so it has at most one.
pub fn first_is_decided()
    ensures { (ts : List Tok) (tree : FirstMain) → IsFirst ts tree ↔ (first_of ts ≡ Some tree) }
{}

fn name(alloc: Global, tokens: &mut Cursor<'_, '_>) -> Result<Text, Stop>
    ensures { Reads (reading.one form.name_of tokens.old) result tokens.new }
{
    let token = tokens.next()?;
    name_of(alloc, &token)
}

fn words(alloc: Global, tokens: &mut Cursor<'_, '_>) -> Result<Text, Stop>
    ensures { Reads (reading.one form.words_of tokens.old) result tokens.new }
{
    let token = tokens.next()?;
    words_of(alloc, &token)
}

fn sign(tokens: &mut Cursor<'_, '_>) -> Result<Sign, Stop>
    ensures { Reads (reading.one form.sign_of tokens.old) result tokens.new }
{
    let token = tokens.next()?;
    sign_of(&token)
}

fn operand(alloc: Global, tokens: &mut Cursor<'_, '_>) -> Result<Operand, Stop>
    ensures { Reads (reading.one form.operand_of tokens.old) result tokens.new }
{
    let token = tokens.next()?;
    operand_of(alloc, &token)
}

#[tactic(auto, unfolding(crate::specs::FirstReading::read_term))]
fn term(alloc: Global, tokens: &mut Cursor<'_, '_>) -> Result<Option<Term>, Stop>
    ensures { ReadsItems (reading.read_term tokens.old) result tokens.new }
{
    let sign = sign(tokens)?;
    let operand = operand(alloc, tokens)?;
    Ok(Some(Term { sign, operand }))
}

fn is_at_operator(tokens: &Cursor<'_, '_>) -> bool
    ensures { result ≡ reading.at_operator tokens.now }
{
    tokens.is_at_sign(b"+") || tokens.is_at_sign(b"-")
}

fn terms(alloc: Global, tokens: &mut Cursor<'_, '_>) -> Result<Items<Term>, Stop>
    ensures { Reads (reading.many reading.at_operator reading.read_term tokens.old) result tokens.new }
{
    many(
        alloc,
        tokens,
        |tokens| is_at_operator(tokens),
        |tokens| term(alloc, tokens),
    )
}

#[tactic(auto, unfolding(crate::specs::FirstReading::read_sum))]
fn sum(alloc: Global, tokens: &mut Cursor<'_, '_>) -> Result<Sum, Stop>
    ensures { Reads (reading.read_sum tokens.old) result tokens.new }
{
    let first = operand(alloc, tokens)?;
    let more = terms(alloc, tokens)?;
    Ok(Sum { first, more })
}

#[tactic(auto, unfolding(crate::specs::FirstReading::read_item, crate::specs::FirstReading::read_words, crate::specs::FirstReading::read_printed_sum))]
fn item(alloc: Global, tokens: &mut Cursor<'_, '_>) -> Result<PrintItem, Stop>
    ensures { Reads (reading.read_item tokens.old) result tokens.new }
{
    if tokens.is_at_text() {
        let words = words(alloc, tokens)?;
        Ok(PrintItem::Words(words))
    } else {
        let sum = sum(alloc, tokens)?;
        Ok(PrintItem::Sum(sum))
    }
}

#[tactic(auto, unfolding(crate::specs::FirstReading::read_further_item))]
fn further_item(alloc: Global, tokens: &mut Cursor<'_, '_>) -> Result<Option<PrintItem>, Stop>
    ensures { ReadsItems (reading.read_further_item tokens.old) result tokens.new }
{
    tokens.sign(b";")?;
    let item = item(alloc, tokens)?;
    Ok(Some(item))
}

#[tactic(auto, unfolding(crate::specs::FirstReading::read_blank_line))]
fn blank_line(tokens: &mut Cursor<'_, '_>) -> Result<Option<Line>, Stop>
    ensures { ReadsItems (reading.read_blank_line tokens.old) result tokens.new }
{
    tokens.newline()?;
    Ok(None)
}

#[tactic(auto, unfolding(crate::specs::FirstReading::read_assignment))]
fn assignment(alloc: Global, tokens: &mut Cursor<'_, '_>) -> Result<Option<Line>, Stop>
    ensures { ReadsItems (reading.read_assignment tokens.old) result tokens.new }
{
    let target = name(alloc, tokens)?;
    tokens.sign(b"=")?;
    let sum = sum(alloc, tokens)?;
    tokens.newline()?;
    Ok(Some(Line::Assign(target, sum)))
}

fn further_items(alloc: Global, tokens: &mut Cursor<'_, '_>) -> Result<Items<PrintItem>, Stop>
    ensures { Reads (reading.many (reading.at (form.is_sign (codes ";"))) reading.read_further_item tokens.old) result tokens.new }
{
    many(
        alloc,
        tokens,
        |tokens| tokens.is_at_sign(b";"),
        |tokens| further_item(alloc, tokens),
    )
}

/// The items of a print statement, with the `;` between them.
#[tactic(auto, unfolding(crate::specs::FirstReading::read_items))]
fn items(alloc: Global, tokens: &mut Cursor<'_, '_>) -> Result<Items<PrintItem>, Stop>
    ensures { Reads (reading.read_items tokens.old) result tokens.new }
{
    let first = item(alloc, tokens)?;
    let more = further_items(alloc, tokens)?;
    let mut items = Items::new(alloc);
    items.push(first)?;
    items.append(more)?;
    Ok(items)
}

#[tactic(auto, unfolding(crate::specs::FirstReading::read_print))]
fn print(alloc: Global, tokens: &mut Cursor<'_, '_>) -> Result<Option<Line>, Stop>
    ensures { ReadsItems (reading.read_print tokens.old) result tokens.new }
{
    tokens.keyword(b"print")?;
    let items = items(alloc, tokens)?;
    tokens.newline()?;
    Ok(Some(Line::Print(items)))
}

#[tactic(auto, unfolding(crate::specs::FirstReading::read_line))]
fn line(alloc: Global, tokens: &mut Cursor<'_, '_>) -> Result<Option<Line>, Stop>
    ensures { ReadsItems (reading.read_line tokens.old) result tokens.new }
{
    if tokens.is_at_newline() {
        blank_line(tokens)
    } else if tokens.is_at_keyword(b"print") {
        print(alloc, tokens)
    } else {
        assignment(alloc, tokens)
    }
}

fn is_at_line(tokens: &Cursor<'_, '_>) -> bool
    ensures { result ≡ reading.at_line tokens.now }
{
    tokens.is_at_newline() || tokens.is_at_keyword(b"print") || tokens.is_at_name()
}

#[tactic(auto, unfolding(crate::specs::FirstReading::read_possible_newline))]
fn possible_newline(tokens: &mut Cursor<'_, '_>) -> Result<(), Stop>
    ensures { Reads (reading.read_possible_newline tokens.old) result tokens.new }
{
    if tokens.is_at_newline() {
        tokens.newline()
    } else {
        Ok(())
    }
}

#[tactic(auto, unfolding(crate::specs::FirstReading::read_head))]
fn head(tokens: &mut Cursor<'_, '_>) -> Result<(), Stop>
    ensures { Reads (reading.read_head tokens.old) result tokens.new }
{
    tokens.keyword(b"sub")?;
    tokens.named(b"main")?;
    tokens.sign(b"(")?;
    tokens.sign(b")")?;
    tokens.newline()
}

#[tactic(auto, unfolding(crate::specs::FirstReading::read_end))]
fn end(tokens: &mut Cursor<'_, '_>) -> Result<(), Stop>
    ensures { Reads (reading.read_end tokens.old) result tokens.new }
{
    tokens.keyword(b"end")?;
    tokens.keyword(b"sub")?;
    possible_newline(tokens)
}

fn lines(alloc: Global, tokens: &mut Cursor<'_, '_>) -> Result<Items<Line>, Stop>
    ensures { Reads (reading.many reading.at_line reading.read_line tokens.old) result tokens.new }
{
    many(
        alloc,
        tokens,
        |tokens| is_at_line(tokens),
        |tokens| line(alloc, tokens),
    )
}

#[tactic(auto, unfolding(crate::specs::FirstReading::read_main))]
fn main(alloc: Global, tokens: &mut Cursor<'_, '_>) -> Result<Items<Line>, Stop>
    ensures { Reads (reading.read_main tokens.old) result tokens.new }
{
    head(tokens)?;
    let lines = lines(alloc, tokens)?;
    end(tokens)?;
    Ok(lines)
}

/// The tree of the tokens, `None` exactly where they are not of the first form.
#[tactic(auto, unfolding(crate::specs::FirstReading::first_of))]
pub(crate) fn read_first(
    alloc: Global,
    tokens: &TokenList<'_>,
) -> Result<Option<FirstMain>, NoMemory>
    ensures tree { IfOk result (λ tree. tree ≡ first_of tokens.now) }
    ensures named { IfOk result (λ tree. IfSome tree (λ main. IsTrue (names_set [] main.lines))) }
{
    let mut cursor = Cursor::new(tokens.as_slice());
    let lines = match main(alloc, &mut cursor) {
        Ok(lines) => lines,
        Err(Stop::NotFirst) => return Ok(None),
        Err(Stop::NoMemory) => return Err(NoMemory),
    };
    if !cursor.is_at_end() {
        return Ok(None);
    }
    if are_names_good(alloc, lines.as_slice())? {
        Ok(Some(FirstMain { lines }))
    } else {
        Ok(None)
    }
}
