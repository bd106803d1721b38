// The readers of expressions: one for each rule of the grammar, and one symbol looked ahead. Expression, simple, term and factor call each
// other in a cycle, in which the nesting allowance falls.
//
// The allowance is a parameter beside the cursor. As a field of it, every reader would have to give it back as it was, at each `?`
// too, and to promise that; a struct of both would lend the cursor anew at each level, and clauses would speak of what it points to.
#![tactic(auto)]

ghost use Rattle.std.specs.Prelude.{◌≡◌, map};
ghost use Rattle.symbol.specs.Symbols.{sym_of};
ghost use Rattle.cursor.specs.Promises.{lex_of, Follows};
ghost use Rattle.cursor.specs.Reading.{head, inner};
ghost use Rattle.expression_tree.specs.Trees.{expr_of, simp_of, addend_of, ter_of, multiplier_of, fac_of, sel_of};
ghost use Rattle.expression_parser.specs.Classes.{relation, sign, adding, multiplying};
ghost use Rattle.expression_parser.specs.Readers.{unsigned, term_of, multipliers_of, addends_of, simple_of, expression_of, enclosed_of, selectors_of, named_of, factor as factor_at};

use cursor::{Cursor, Halt, Lexeme, append};
use expression_tree::{
    Addend, Adding, Expression, Factor, Multiplier, Multiplying, Relation, Selector, Sign, Simple,
    Term,
};
use fault::Cause;
use symbol::{Mark, Symbol, Word};

// The four below answer an `Option` and are no `TryFrom`: that a symbol is none of these is no error, since it may be left out.

fn relation_of(symbol: Symbol) -> Option<Relation>
    ensures { result ≡ relation (sym_of symbol.entry) }
{
    match symbol {
        Symbol::Mark(Mark::Equal) => Some(Relation::Equal),
        Symbol::Mark(Mark::NotEqual) => Some(Relation::NotEqual),
        Symbol::Mark(Mark::Less) => Some(Relation::Less),
        Symbol::Mark(Mark::LessEqual) => Some(Relation::LessEqual),
        Symbol::Mark(Mark::Greater) => Some(Relation::Greater),
        Symbol::Mark(Mark::GreaterEqual) => Some(Relation::GreaterEqual),
        _ => None,
    }
}

fn sign_of(symbol: Symbol) -> Option<Sign>
    ensures { result ≡ sign (sym_of symbol.entry) }
{
    match symbol {
        Symbol::Mark(Mark::Plus) => Some(Sign::Plus),
        Symbol::Mark(Mark::Minus) => Some(Sign::Minus),
        _ => None,
    }
}

fn adding_of(symbol: Symbol) -> Option<Adding>
    ensures { result ≡ adding (sym_of symbol.entry) }
{
    match symbol {
        Symbol::Mark(Mark::Plus) => Some(Adding::Plus),
        Symbol::Mark(Mark::Minus) => Some(Adding::Minus),
        Symbol::Word(Word::Or) => Some(Adding::Or),
        Symbol::Word(Word::Xor) => Some(Adding::Xor),
        _ => None,
    }
}

fn multiplying_of(symbol: Symbol) -> Option<Multiplying>
    ensures { result ≡ multiplying (sym_of symbol.entry) }
{
    match symbol {
        Symbol::Mark(Mark::Times) => Some(Multiplying::Times),
        Symbol::Mark(Mark::Slash) => Some(Multiplying::Slash),
        Symbol::Word(Word::Div) => Some(Multiplying::Div),
        Symbol::Word(Word::Mod) => Some(Multiplying::Mod),
        Symbol::Word(Word::And) => Some(Multiplying::And),
        _ => None,
    }
}

// Reads the sign, if there is one.
pub fn read_sign(cursor: &mut Cursor<'_, '_>) -> Option<Sign>
    ensures { (result ≡ sign (head cursor.old).symbol) × (cursor.new ≡ unsigned result cursor.old) }
{
    let sign = sign_of(cursor.first().symbol);
    if sign.is_some() {
        cursor.advance();
    }
    sign
}

#[cycle(expressions)]
pub fn expression<'s, 't>(
    cursor: &mut Cursor<'s, 't>,
    allowance: u8,
) -> Result<Expression<'t>, Halt>
    ensures { Follows expr_of result cursor.new (expression_of (factor_at allowance) cursor.old) }
{
    let left = simple(cursor, allowance)?;
    match relation_of(cursor.first().symbol) {
        None => Ok(Expression::of_plain(cursor.heap, left)?),
        Some(relation) => {
            cursor.advance();
            let right = simple(cursor, allowance)?;
            Ok(Expression::of_related(cursor.heap, left, relation, right)?)
        }
    }
}

#[cycle(expressions)]
fn simple<'s, 't>(cursor: &mut Cursor<'s, 't>, allowance: u8) -> Result<Simple<'t>, Halt>
    ensures { Follows simp_of result cursor.new (simple_of (factor_at allowance) cursor.old) }
{
    let place = cursor.first().place;
    let sign = read_sign(cursor);
    let first = term(cursor, allowance)?;
    let addends = addends(cursor, allowance)?;
    Ok(Simple {
        place,
        sign,
        first,
        addends,
    })
}

// This loop and that of `multipliers` differ in operator, operand and node: through one function for both the calls would lead back
// here by its operand, and a cycle through such a function gets no proof (tried).
#[cycle(expressions)]
fn addends<'s, 't>(cursor: &mut Cursor<'s, 't>, allowance: u8) -> Result<Vec<Addend<'t>>, Halt>
    ensures { Follows (λ v. map addend_of v.items) result cursor.new (addends_of (factor_at allowance) cursor.old) }
{
    let mut addends = Vec::new(cursor.heap);
    while let Some(adding) = adding_of(cursor.first().symbol) {
        cursor.advance();
        let term = term(cursor, allowance)?;
        append(&mut addends, Addend { adding, term })?;
    }
    Ok(addends)
}

#[cycle(expressions)]
fn term<'s, 't>(cursor: &mut Cursor<'s, 't>, allowance: u8) -> Result<Term<'t>, Halt>
    ensures { Follows ter_of result cursor.new (term_of (factor_at allowance) cursor.old) }
{
    let first = factor(cursor, allowance)?;
    let multipliers = multipliers(cursor, allowance)?;
    Ok(Term { first, multipliers })
}

#[cycle(expressions)]
fn multipliers<'s, 't>(
    cursor: &mut Cursor<'s, 't>,
    allowance: u8,
) -> Result<Vec<Multiplier<'t>>, Halt>
    ensures { Follows (λ v. map multiplier_of v.items) result cursor.new (multipliers_of (factor_at allowance) cursor.old) }
{
    let mut multipliers = Vec::new(cursor.heap);
    while let Some(multiplying) = multiplying_of(cursor.first().symbol) {
        cursor.advance();
        let factor = factor(cursor, allowance)?;
        append(
            &mut multipliers,
            Multiplier {
                multiplying,
                factor,
            },
        )?;
    }
    Ok(multipliers)
}

#[cycle(expressions)]
fn factor<'s, 't>(cursor: &mut Cursor<'s, 't>, allowance: u8) -> Result<Factor<'t>, Halt>
    ensures { Follows fac_of result cursor.new (factor_at allowance cursor.old) }
{
    let first = cursor.first();
    match first.symbol {
        Symbol::Number(text) => Ok(Factor::Number(cursor.take(text))),
        Symbol::Character(text) => Ok(Factor::Character(cursor.take(text))),
        Symbol::Name(text) => {
            let name = cursor.take(text);
            named(cursor, allowance, name)
        }
        Symbol::Mark(Mark::LeftParen) => {
            let deeper = cursor.deeper(allowance)?;
            let inner = expression(cursor, deeper)?;
            cursor.pass(Mark::RightParen)?;
            Ok(Factor::of_paren(cursor.heap, first.place, inner)?)
        }
        Symbol::Word(Word::Not) => {
            let deeper = cursor.deeper(allowance)?;
            let inner = factor(cursor, deeper)?;
            Ok(Factor::of_not(cursor.heap, first.place, inner)?)
        }
        _ => Err(cursor.halt(Cause::Syntax)),
    }
}

// What begins with a name: a call, or a variable.
#[cycle(expressions)]
fn named<'s, 't>(
    cursor: &mut Cursor<'s, 't>,
    allowance: u8,
    name: Lexeme<'t>,
) -> Result<Factor<'t>, Halt>
    ensures { Follows fac_of result cursor.new (named_of (inner factor_at allowance) (lex_of name.entry) cursor.old) }
{
    if cursor.at(Mark::LeftParen) {
        let actuals = enclosed(cursor, allowance, Mark::RightParen)?;
        return Ok(Factor::Call(name, actuals));
    }
    let selectors = selectors(cursor, allowance)?;
    Ok(Factor::Variable(name, selectors))
}

#[cycle(expressions)]
pub fn selectors<'s, 't>(
    cursor: &mut Cursor<'s, 't>,
    allowance: u8,
) -> Result<Vec<Selector<'t>>, Halt>
    ensures { Follows (λ v. map sel_of v.items) result cursor.new (selectors_of (inner factor_at allowance) cursor.old) }
{
    let mut selectors = Vec::new(cursor.heap);
    loop {
        if cursor.at(Mark::Dot) {
            cursor.advance();
            let field = cursor.ident()?;
            selectors.push(Selector::Field(field))?;
        } else if cursor.at(Mark::LeftBracket) {
            let indices = enclosed(cursor, allowance, Mark::RightBracket)?;
            selectors.push(Selector::Index(indices))?;
        } else {
            return Ok(selectors);
        }
    }
}

// The symbol that opens, expressions parted by commas, and the mark that closes. The list is read in place: through a reader of any list
// the calls would lead back here by its item, a trait's, and a cycle through such a reader gets no proof (tried).
#[cycle(expressions)]
pub fn enclosed<'s, 't>(
    cursor: &mut Cursor<'s, 't>,
    allowance: u8,
    close: Mark,
) -> Result<Vec<Expression<'t>>, Halt>
    ensures { Follows (λ v. map expr_of v.items) result cursor.new (enclosed_of (inner factor_at allowance) close cursor.old) }
{
    let deeper = cursor.deeper(allowance)?;
    let first = expression(cursor, deeper)?;
    let mut list = Vec::new(cursor.heap);
    list.push(first)?;
    while cursor.at(Mark::Comma) {
        cursor.advance();
        let next = expression(cursor, deeper)?;
        list.push(next)?;
    }
    cursor.pass(close)?;
    Ok(list)
}
