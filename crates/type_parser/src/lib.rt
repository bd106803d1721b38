// The readers of constants and types. A type can hold types: arrays and records call each other in a cycle, in which the nesting
// allowance falls, a parameter here too.
#![tactic(auto)]

ghost use Rattle.cursor.specs.Promises.{Follows};
ghost use Rattle.cursor.specs.Reading.{inner};
ghost use Rattle.type_tree.specs.Trees.{con_of, typ_of, sec_of};
ghost use Rattle.type_parser.specs.Readers.{constant_of, enumeration_of, type_expr_of, array_at, section_of, record_at};

use cursor::{Cursor, Halt, append};
use expression_parser::read_sign;
use fault::Cause;
use symbol::{Mark, Symbol, Word};
use type_tree::{Constant, Section, TypeExpr};

pub fn constant<'s, 't>(cursor: &mut Cursor<'s, 't>) -> Result<Constant<'t>, Halt>
    ensures { Follows con_of result cursor.new (constant_of cursor.old) }
{
    if let Some(sign) = read_sign(cursor) {
        return Ok(Constant::Number(Some(sign), cursor.number()?));
    }
    match cursor.first().symbol {
        Symbol::Number(text) => Ok(Constant::Number(None, cursor.take(text))),
        Symbol::Name(text) => Ok(Constant::Name(cursor.take(text))),
        Symbol::Character(text) => Ok(Constant::Character(cursor.take(text))),
        _ => Err(cursor.halt(Cause::Syntax)),
    }
}

fn enumeration<'s, 't>(cursor: &mut Cursor<'s, 't>, allowance: u8) -> Result<TypeExpr<'t>, Halt>
    ensures { Follows typ_of result cursor.new (enumeration_of (inner type_expr_of allowance) cursor.old) }
{
    let place = cursor.first().place;
    cursor.deeper(allowance)?;
    let names = cursor.idents()?;
    cursor.pass(Mark::RightParen)?;
    Ok(TypeExpr::Enumeration(place, names))
}

#[cycle(types)]
pub fn type_expr<'s, 't>(cursor: &mut Cursor<'s, 't>, allowance: u8) -> Result<TypeExpr<'t>, Halt>
    ensures { Follows typ_of result cursor.new (type_expr_of allowance cursor.old) }
{
    match cursor.first().symbol {
        Symbol::Name(text) => Ok(TypeExpr::Named(cursor.take(text))),
        Symbol::Mark(Mark::LeftParen) => enumeration(cursor, allowance),
        Symbol::Word(Word::Array) => array(cursor, allowance),
        Symbol::Word(Word::Record) => record(cursor, allowance),
        _ => Err(cursor.halt(Cause::Syntax)),
    }
}

#[cycle(types)]
fn array<'s, 't>(cursor: &mut Cursor<'s, 't>, allowance: u8) -> Result<TypeExpr<'t>, Halt>
    ensures { Follows typ_of result cursor.new (array_at (inner type_expr_of allowance) cursor.old) }
{
    let place = cursor.first().place;
    let deeper = cursor.deeper(allowance)?;
    let low = constant(cursor)?;
    cursor.pass(Mark::Colon)?;
    let high = constant(cursor)?;
    cursor.pass(Word::Of)?;
    let element = type_expr(cursor, deeper)?;
    Ok(TypeExpr::of_array(cursor.heap, place, low, high, element)?)
}

#[cycle(types)]
fn section<'s, 't>(cursor: &mut Cursor<'s, 't>, allowance: u8) -> Result<Section<'t>, Halt>
    ensures { Follows sec_of result cursor.new (section_of (type_expr_of allowance) cursor.old) }
{
    let names = cursor.idents()?;
    cursor.pass(Mark::Colon)?;
    let field = type_expr(cursor, allowance)?;
    Ok(Section { names, field })
}

// The list of sections is read in place, for the reason that `expression_parser::enclosed` has.
#[cycle(types)]
fn record<'s, 't>(cursor: &mut Cursor<'s, 't>, allowance: u8) -> Result<TypeExpr<'t>, Halt>
    ensures { Follows typ_of result cursor.new (record_at (inner type_expr_of allowance) cursor.old) }
{
    let place = cursor.first().place;
    let deeper = cursor.deeper(allowance)?;
    let first = section(cursor, deeper)?;
    let mut sections = Vec::new(cursor.heap);
    append(&mut sections, first)?;
    while cursor.at(Mark::Semicolon) {
        cursor.advance();
        let next = section(cursor, deeper)?;
        append(&mut sections, next)?;
    }
    cursor.pass(Word::End)?;
    Ok(TypeExpr::Record(place, sections))
}
