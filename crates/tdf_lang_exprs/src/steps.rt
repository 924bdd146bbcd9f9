//! One token of an expression after another.

ghost use Rattle.std.specs.Prelude.{◌≡◌, ◌++◌, ◌∷◌, [], List, map, IfOk};
ghost use Rattle.tdf_lang_lexer.specs.Token.{Tok, tok};
ghost use Rattle.tdf_lang_tree.specs.Pure.{PureExpr, ECast, ESelect};
ghost use Rattle.tdf_lang_tree.specs.Views.{pure_expr};
ghost use Rattle.tdf_lang_exprs.specs.machine.Indices.{index_of};
ghost use Rattle.tdf_lang_exprs.specs.machine.Exprs.{Wait, Within, Have, Named, Top, shut, part, join, start, start_key, start_symbol, after_name, after_name_symbol, indexed, within_index, after_shift, shifted, after_select, step};
ghost use Rattle.tdf_lang_exprs.specs.views.Waiting.{opening, waits, reading};
ghost use Rattle.tdf_lang_exprs.specs.declared.after.After.TheVariants.{Joins};

use crate::after::{After, after_of, left_level_of, level_of};
use crate::index::read_index;
use crate::numbers::read_number;
use crate::pending::{At, Bracket, Pending, reduce, stops};
use std::alloc::Global;
use tdf_base::{Memory, Version, read_int};
use tdf_lang_lexer::{Key, Symbol, Token};
use tdf_lang_tree::{Expr, Name, Op};

/// `)` after an operand that nothing tighter waits for.
#[tactic(auto, using(crate::proofs::Waits::wait_laws))]
fn shut(alloc: Global, stack: &mut Vec<Pending>, tree: Expr) -> Result<At, Memory>
    ensures { IfOk result (λ at. (a : List Tok) → reading (waits stack.new.items) a at ≡ shut (waits stack.old.items) (pure_expr tree)) }
{
    match stack.pop() {
        Some(Pending::Within(bracket)) => close(alloc, bracket, tree),
        Some(Pending::Negated) => {
            drop(tree);
            Ok(At::Bad)
        }
        Some(Pending::Denied) => {
            drop(tree);
            Ok(At::Bad)
        }
        Some(Pending::Left(_, left)) => {
            drop(left);
            drop(tree);
            Ok(At::Bad)
        }
        None => {
            drop(tree);
            Ok(At::Bad)
        }
    }
}

fn close(alloc: Global, bracket: Bracket, tree: Expr) -> Result<At, Memory>
    ensures { IfOk result (λ at. (s : List Wait) (a : List Tok) → reading s a at ≡ shut (Within (opening bracket) ∷ s) (pure_expr tree)) }
{
    match bracket {
        Bracket::Group => Ok(At::Have(tree)),
        Bracket::Call(name) => called(alloc, name, tree),
        Bracket::First => {
            drop(tree);
            Ok(At::Bad)
        }
        Bracket::Second(test) => {
            drop(test);
            drop(tree);
            Ok(At::Bad)
        }
        Bracket::Third(test, first) => selected(alloc, test, first, tree),
    }
}

fn called(alloc: Global, name: Name, tree: Expr) -> Result<At, Memory>
    ensures { IfOk result (λ at. (s : List Wait) (a : List Tok) → reading s a at ≡ Have s (ECast name (pure_expr tree))) }
{
    match Box::new(alloc, tree) {
        Ok(tree) => Ok(At::Have(Expr::Cast(name, tree))),
        Err(failed) => {
            drop(name);
            Err(Memory::from(failed))
        }
    }
}

fn selected(alloc: Global, test: Expr, first: Expr, second: Expr) -> Result<At, Memory>
    ensures { IfOk result (λ at. (s : List Wait) (a : List Tok) → reading s a at ≡ Have s (ESelect (pure_expr test) (pure_expr first) (pure_expr second))) }
{
    match Box::new(alloc, test) {
        Ok(test) => chosen(alloc, test, first, second),
        Err(failed) => {
            drop(first);
            drop(second);
            Err(Memory::from(failed))
        }
    }
}

fn chosen(alloc: Global, test: Box<Expr>, first: Expr, second: Expr) -> Result<At, Memory>
    ensures { IfOk result (λ at. (s : List Wait) (a : List Tok) → reading s a at ≡ Have s (ESelect (pure_expr test.value) (pure_expr first) (pure_expr second))) }
{
    let first = match Box::new(alloc, first) {
        Ok(first) => first,
        Err(failed) => {
            drop(test);
            drop(second);
            return Err(Memory::from(failed));
        }
    };
    match Box::new(alloc, second) {
        Ok(second) => Ok(At::Have(Expr::Select(test, first, second))),
        Err(failed) => {
            drop(test);
            drop(first);
            Err(Memory::from(failed))
        }
    }
}

/// `,` after an operand that nothing tighter waits for.
#[tactic(auto, using(crate::proofs::Waits::wait_laws))]
fn part(stack: &mut Vec<Pending>, tree: Expr) -> Result<At, Memory>
    ensures { IfOk result (λ at. (a : List Tok) → reading (waits stack.new.items) a at ≡ part (waits stack.old.items) (pure_expr tree)) }
{
    match stack.pop() {
        Some(Pending::Within(bracket)) => go_on(stack, bracket, tree),
        Some(Pending::Negated) => {
            drop(tree);
            Ok(At::Bad)
        }
        Some(Pending::Denied) => {
            drop(tree);
            Ok(At::Bad)
        }
        Some(Pending::Left(_, left)) => {
            drop(left);
            drop(tree);
            Ok(At::Bad)
        }
        None => {
            drop(tree);
            Ok(At::Bad)
        }
    }
}

#[tactic(auto, using(crate::proofs::Waits::wait_laws))]
fn go_on(stack: &mut Vec<Pending>, bracket: Bracket, tree: Expr) -> Result<At, Memory>
    ensures { IfOk result (λ at. (a : List Tok) → reading (waits stack.new.items) a at ≡ part (Within (opening bracket) ∷ waits stack.old.items) (pure_expr tree)) }
{
    match bracket {
        Bracket::Group => {
            drop(tree);
            Ok(At::Bad)
        }
        Bracket::Call(name) => {
            drop(name);
            drop(tree);
            Ok(At::Bad)
        }
        Bracket::First => {
            stack.push(Pending::Within(Bracket::Second(tree)))?;
            Ok(At::Want)
        }
        Bracket::Second(test) => {
            stack.push(Pending::Within(Bracket::Third(test, tree)))?;
            Ok(At::Want)
        }
        Bracket::Third(test, first) => {
            drop(test);
            drop(first);
            drop(tree);
            Ok(At::Bad)
        }
    }
}

/// An operator after its left operand.
#[tactic(auto, using(crate::proofs::Waits::wait_laws))]
fn joined(alloc: Global, stack: &mut Vec<Pending>, op: Op, tree: Expr) -> Result<At, Memory>
    ensures { IfOk result (λ at. (a : List Tok) → reading (waits stack.new.items) a at ≡ join (Joins op) (waits stack.old.items) (pure_expr tree)) }
{
    let left = reduce(alloc, stack, left_level_of(op), tree)?;
    if !stops(stack, level_of(op)) {
        drop(left);
        return Ok(At::Bad);
    }
    stack.push(Pending::Left(op, left))?;
    Ok(At::Want)
}

fn join(alloc: Global, stack: &mut Vec<Pending>, tree: Expr, after: After) -> Result<At, Memory>
    ensures { IfOk result (λ at. (a : List Tok) → reading (waits stack.new.items) a at ≡ join after (waits stack.old.items) (pure_expr tree)) }
{
    match after {
        After::Joins(op) => joined(alloc, stack, op, tree),
        After::Shifts(left) => Ok(At::Shifting(reduce(alloc, stack, 5, tree)?, left)),
        After::Shuts => {
            let whole = reduce(alloc, stack, 0, tree)?;
            shut(alloc, stack, whole)
        }
        After::Parts => {
            let whole = reduce(alloc, stack, 0, tree)?;
            part(stack, whole)
        }
        After::Breaks => {
            drop(tree);
            Ok(At::Bad)
        }
    }
}

/// A token where an operand is wanted.
fn start(alloc: Global, stack: &mut Vec<Pending>, token: Token) -> Result<At, Memory>
    ensures { IfOk result (λ at. (a : List Tok) → reading (waits stack.new.items) a at ≡ start (tok token.entry) (waits stack.old.items)) }
{
    match token {
        Token::Number(text) => Ok(At::Have(Expr::Number(read_number(alloc, text)?))),
        Token::Name(name) => Ok(At::Named(Name::copied(alloc, name)?)),
        Token::Key(key) => start_key(stack, key),
        Token::Symbol(symbol) => start_symbol(stack, symbol),
        _ => Ok(At::Bad),
    }
}

#[tactic(auto, using(crate::proofs::Waits::wait_laws))]
fn start_key(stack: &mut Vec<Pending>, key: Key) -> Result<At, Memory>
    ensures { IfOk result (λ at. (a : List Tok) → reading (waits stack.new.items) a at ≡ start_key key (waits stack.old.items)) }
{
    match key {
        Key::Not => {
            if !stops(stack, 2) {
                return Ok(At::Bad);
            }
            stack.push(Pending::Denied)?;
            Ok(At::Want)
        }
        Key::Select => Ok(At::Selecting),
        _ => Ok(At::Bad),
    }
}

#[tactic(auto, using(crate::proofs::Waits::wait_laws))]
fn start_symbol(stack: &mut Vec<Pending>, symbol: Symbol) -> Result<At, Memory>
    ensures { IfOk result (λ at. (a : List Tok) → reading (waits stack.new.items) a at ≡ start_symbol symbol (waits stack.old.items)) }
{
    match symbol {
        Symbol::Open => {
            stack.push(Pending::Within(Bracket::Group))?;
            Ok(At::Want)
        }
        Symbol::Minus => {
            stack.push(Pending::Negated)?;
            Ok(At::Want)
        }
        _ => Ok(At::Bad),
    }
}

/// A token after a name.
#[tactic(auto, using(crate::proofs::Waits::wait_laws))]
fn after_name<'t>(
    alloc: Global,
    stack: &mut Vec<Pending>,
    inside: &mut Vec<Token<'t>>,
    name: Name,
    token: Token<'t>,
) -> Result<At, Memory>
    ensures { IfOk result (λ at. reading (waits stack.new.items) (map tok inside.new.items) at ≡ after_name (tok token.entry) (waits stack.old.items) name) }
{
    match token {
        Token::Symbol(Symbol::Open) => {
            stack.push(Pending::Within(Bracket::Call(name)))?;
            Ok(At::Want)
        }
        Token::Symbol(Symbol::OpenSquare) => {
            inside.clear();
            Ok(At::Indexing(name))
        }
        _ => join(alloc, stack, Expr::Name(name), after_of(token)),
    }
}

/// A token between `[` and `]`.
#[tactic(auto, using(crate::proofs::Waits::map_push))]
fn within_index<'t>(
    alloc: Global,
    version: Version,
    inside: &mut Vec<Token<'t>>,
    name: Name,
    token: Token<'t>,
) -> Result<At, Memory>
    ensures { IfOk result (λ at. (s : List Wait) → reading s (map tok inside.new.items) at ≡ within_index version (tok token.entry) s name (map tok inside.old.items)) }
{
    match token {
        Token::Symbol(Symbol::CloseSquare) => indexed(alloc, version, inside, name),
        _ => {
            inside.push(token)?;
            Ok(At::Indexing(name))
        }
    }
}

fn indexed<'t>(
    alloc: Global,
    version: Version,
    inside: &Vec<Token<'t>>,
    name: Name,
) -> Result<At, Memory>
    ensures { IfOk result (λ at. (s : List Wait) (a : List Tok) → reading s a at ≡ indexed (index_of version (map tok inside.now.items)) s name) }
{
    match read_index(alloc, version, inside.as_slice()) {
        Ok(Some(index)) => Ok(At::Have(Expr::At(name, index))),
        Ok(None) => {
            drop(name);
            Ok(At::Bad)
        }
        Err(failed) => {
            drop(name);
            Err(failed)
        }
    }
}

/// A token after `<<` or `>>`.
fn after_shift(alloc: Global, tree: Expr, left: bool, token: Token) -> Result<At, Memory>
    ensures { IfOk result (λ at. (s : List Wait) (a : List Tok) → reading s a at ≡ after_shift (tok token.entry) s (pure_expr tree) left) }
{
    match token {
        Token::Number(text) => shifted(alloc, tree, left, read_int(text)),
        _ => {
            drop(tree);
            Ok(At::Bad)
        }
    }
}

fn shifted(alloc: Global, tree: Expr, left: bool, bits: Option<u64>) -> Result<At, Memory>
    ensures { IfOk result (λ at. (s : List Wait) (a : List Tok) → reading s a at ≡ shifted bits s (pure_expr tree) left) }
{
    match bits {
        Some(bits) => Ok(At::Have(Expr::Shift(Box::new(alloc, tree)?, left, bits))),
        None => {
            drop(tree);
            Ok(At::Bad)
        }
    }
}

/// A token after `select`.
#[tactic(auto, using(crate::proofs::Waits::wait_laws))]
fn after_select(stack: &mut Vec<Pending>, token: Token) -> Result<At, Memory>
    ensures { IfOk result (λ at. (a : List Tok) → reading (waits stack.new.items) a at ≡ after_select (tok token.entry) (waits stack.old.items)) }
{
    match token {
        Token::Symbol(Symbol::Open) => {
            stack.push(Pending::Within(Bracket::First))?;
            Ok(At::Want)
        }
        _ => Ok(At::Bad),
    }
}

/// One token more. `inside` holds the tokens of an index that is open.
pub(crate) fn step<'t>(
    alloc: Global,
    version: Version,
    stack: &mut Vec<Pending>,
    inside: &mut Vec<Token<'t>>,
    at: At,
    token: Token<'t>,
) -> Result<At, Memory>
    ensures { IfOk result (λ next. reading (waits stack.new.items) (map tok inside.new.items) next
        ≡ step version (reading (waits stack.old.items) (map tok inside.old.items) at) (tok token.entry)) }
{
    match at {
        At::Want => start(alloc, stack, token),
        At::Have(tree) => join(alloc, stack, tree, after_of(token)),
        At::Named(name) => after_name(alloc, stack, inside, name, token),
        At::Indexing(name) => within_index(alloc, version, inside, name, token),
        At::Shifting(tree, left) => after_shift(alloc, tree, left, token),
        At::Selecting => after_select(stack, token),
        At::Bad => Ok(At::Bad),
    }
}
