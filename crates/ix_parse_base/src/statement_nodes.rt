//! The nodes of statements (JLS 14), with their heights. Each is made by a function of its own, behind the last of its tokens.
ghost use Rattle.std.specs.Prelude.{◌≡◌, ◌<◌, ◌+◌, ◌^◌, MatchResult};
ghost use Rattle.ix_grammar_rules.specs.declared.stop.Stop.TheVariants.{Memory};
ghost use Rattle.ix_grammar.specs.ClassGrammar as block;
ghost use Rattle.ix_grammar.specs.DeclGrammar.{begins as the_begins};
ghost use Rattle.ix_grammar.specs.StmtGrammar as nodes;

use ix_grammar::classes::Stmts;
use ix_grammar::declarations::FoundMods;
use ix_grammar::found::{Found, FoundDecls, FoundStmt, FoundType, Several};
use ix_grammar::spans::across;
use ix_grammar_rules::stop::Stop;
use ix_text::{Boxed, List, Span};
use ix_tree::{Ident, Stmt, StmtKind};
use std::alloc::Global;

/// A statement whose highest part is so high, 0 where it has none.
pub fn stmt_node(alloc: Global, kind: StmtKind, parts: u32, span: Span) -> Result<FoundStmt, Stop>
    requires room { parts + 1 < 2 ^ 32 }
    ensures { MatchResult result (λ found. found ≡ nodes.stmt_node kind parts span) (λ stop. stop ≡ Memory) }
{
    let stmt = Boxed::new(alloc, Stmt { kind, span })?;
    Ok(FoundStmt {
        stmt,
        height: parts + 1,
    })
}

/// No statements.
pub fn no_stmts(alloc: Global) -> Stmts
    ensures { result ≡ block.no_stmts }
{
    Stmts {
        stmts: List::new(alloc),
        height: 0,
    }
}

/// One more statement.
pub fn with_stmt(before: Stmts, found: FoundStmt) -> Result<Stmts, Stop>
    ensures { MatchResult result (λ all. all ≡ block.with_stmt before found) (λ stop. stop ≡ Memory) }
{
    let height = before.height.max(found.height);
    let mut stmts = before.stmts;
    stmts.push(found.stmt.into_inner())?;
    Ok(Stmts { stmts, height })
}

/// `Block = "{" {BStmt} "}"`
pub fn block_stmt(alloc: Global, left: Span, found: Stmts, right: Span) -> Result<FoundStmt, Stop>
    requires room { found.height + 1 < 2 ^ 32 }
    ensures { MatchResult result (λ made. made ≡ nodes.block_stmt left found right) (λ stop. stop ≡ Memory) }
{
    stmt_node(
        alloc,
        StmtKind::Block(found.stmts),
        found.height,
        across(left, right),
    )
}

/// `"if" "(" Expr ")" Stmt`
pub fn if_stmt(
    alloc: Global,
    start: Span,
    condition: Found,
    found: FoundStmt,
) -> Result<FoundStmt, Stop>
    requires { record {
      condition : condition.height + 1 < 2 ^ 32;
      found : found.height + 1 < 2 ^ 32;
    } }
    ensures { MatchResult result (λ made. made ≡ nodes.if_stmt start condition found) (λ stop. stop ≡ Memory) }
{
    let span = across(start, found.stmt.get().span);
    let height = condition.height.max(found.height);
    let kind = StmtKind::If(condition.expr.into_inner(), found.stmt, None);
    stmt_node(alloc, kind, height, span)
}

/// `"if" "(" Expr ")" Stmt "else" Stmt`
pub fn if_else_stmt(
    alloc: Global,
    start: Span,
    condition: Found,
    found: FoundStmt,
    other: FoundStmt,
) -> Result<FoundStmt, Stop>
    requires { record {
      condition : condition.height + 1 < 2 ^ 32;
      found : found.height + 1 < 2 ^ 32;
      other : other.height + 1 < 2 ^ 32;
    } }
    ensures { MatchResult result (λ made. made ≡ nodes.if_else_stmt start condition found other) (λ stop. stop ≡ Memory) }
{
    let span = across(start, other.stmt.get().span);
    let height = condition.height.max(found.height.max(other.height));
    let kind = StmtKind::If(condition.expr.into_inner(), found.stmt, Some(other.stmt));
    stmt_node(alloc, kind, height, span)
}

/// `"while" "(" Expr ")" Stmt`
pub fn while_stmt(
    alloc: Global,
    start: Span,
    condition: Found,
    found: FoundStmt,
) -> Result<FoundStmt, Stop>
    requires { record {
      condition : condition.height + 1 < 2 ^ 32;
      found : found.height + 1 < 2 ^ 32;
    } }
    ensures { MatchResult result (λ made. made ≡ nodes.while_stmt start condition found) (λ stop. stop ≡ Memory) }
{
    let span = across(start, found.stmt.get().span);
    let height = condition.height.max(found.height);
    let kind = StmtKind::While(condition.expr.into_inner(), found.stmt);
    stmt_node(alloc, kind, height, span)
}

/// `"do" Stmt "while" "(" Expr ")" ";"`
pub fn do_stmt(
    alloc: Global,
    start: Span,
    found: FoundStmt,
    condition: Found,
    end: Span,
) -> Result<FoundStmt, Stop>
    requires { record {
      found : found.height + 1 < 2 ^ 32;
      condition : condition.height + 1 < 2 ^ 32;
    } }
    ensures { MatchResult result (λ made. made ≡ nodes.do_stmt start found condition end) (λ stop. stop ≡ Memory) }
{
    let height = found.height.max(condition.height);
    let kind = StmtKind::Do(found.stmt, condition.expr.into_inner());
    stmt_node(alloc, kind, height, across(start, end))
}

/// The height of an expression, 0 where there is none.
fn maybe_height(found: &Option<Found>) -> u32
    ensures { result ≡ nodes.maybe_height found.now }
{
    match found {
        None => 0,
        Some(found) => found.height,
    }
}

/// `"for" "(" [First] ";" [Expr] ";" [Update] ")" Stmt`
pub fn for_stmt(
    alloc: Global,
    start: Span,
    first: Stmts,
    condition: Option<Found>,
    update: Several,
    found: FoundStmt,
) -> Result<FoundStmt, Stop>
    requires { record {
      first : first.height + 1 < 2 ^ 32;
      condition : nodes.maybe_height condition + 1 < 2 ^ 32;
      update : update.height + 1 < 2 ^ 32;
      found : found.height + 1 < 2 ^ 32;
    } }
    ensures { MatchResult result (λ made. made ≡ nodes.for_stmt start first condition update found) (λ stop. stop ≡ Memory) }
{
    let span = across(start, found.stmt.get().span);
    let head = first.height.max(maybe_height(&condition));
    let height = head.max(update.height.max(found.height));
    let condition = match condition {
        None => None,
        Some(found) => Some(found.expr.into_inner()),
    };
    let kind = StmtKind::For(first.stmts, condition, update.items, found.stmt);
    stmt_node(alloc, kind, height, span)
}

/// `"return" [Expr] ";"`
pub fn return_stmt(
    alloc: Global,
    start: Span,
    value: Option<Found>,
    end: Span,
) -> Result<FoundStmt, Stop>
    requires room { nodes.maybe_height value + 1 < 2 ^ 32 }
    ensures { MatchResult result (λ made. made ≡ nodes.return_stmt start value end) (λ stop. stop ≡ Memory) }
{
    let height = maybe_height(&value);
    let value = match value {
        None => None,
        Some(found) => Some(found.expr.into_inner()),
    };
    stmt_node(alloc, StmtKind::Return(value), height, across(start, end))
}

/// `"throw" "new" Ident "(" [String] ")" ";"`
pub fn throw_stmt(alloc: Global, start: Span, name: Ident, end: Span) -> Result<FoundStmt, Stop>
    ensures { MatchResult result (λ made. made ≡ nodes.throw_stmt start name end) (λ stop. stop ≡ Memory) }
{
    stmt_node(alloc, StmtKind::Throw(name), 1, across(start, end))
}

/// `"System" "." "out" "." "println" "(" Expr ")" ";"`
pub fn print_stmt(alloc: Global, start: Span, found: Found, end: Span) -> Result<FoundStmt, Stop>
    requires room { found.height + 1 < 2 ^ 32 }
    ensures { MatchResult result (λ made. made ≡ nodes.print_stmt start found end) (λ stop. stop ≡ Memory) }
{
    let height = found.height;
    let kind = StmtKind::Print(found.expr.into_inner());
    stmt_node(alloc, kind, height, across(start, end))
}

/// `SExpr ";"`
pub fn run_stmt(alloc: Global, found: Found, end: Span) -> Result<FoundStmt, Stop>
    requires room { found.height + 1 < 2 ^ 32 }
    ensures { MatchResult result (λ made. made ≡ nodes.run_stmt found end) (λ stop. stop ≡ Memory) }
{
    let height = found.height;
    let span = across(found.outer, end);
    let kind = StmtKind::Run(found.expr.into_inner());
    stmt_node(alloc, kind, height, span)
}

/// `SExpr`, a part of the head of a `for`
pub fn run_part(alloc: Global, found: Found) -> Result<FoundStmt, Stop>
    requires room { found.height + 1 < 2 ^ 32 }
    ensures { MatchResult result (λ made. made ≡ nodes.run_part found) (λ stop. stop ≡ Memory) }
{
    let height = found.height;
    let span = found.outer;
    let kind = StmtKind::Run(found.expr.into_inner());
    stmt_node(alloc, kind, height, span)
}

/// Where something begins that such places stand before.
fn begins(first: Option<Span>, span: Span) -> Span
    ensures { result ≡ the_begins first span }
{
    match first {
        None => span,
        Some(first) => first,
    }
}

/// `Local`, as far as another token
pub fn local_stmt(
    alloc: Global,
    mods: FoundMods,
    ty: FoundType,
    found: FoundDecls,
    end: Span,
) -> Result<FoundStmt, Stop>
    requires room { found.height + 1 < 2 ^ 32 }
    ensures { MatchResult result (λ made. made ≡ nodes.local_stmt mods ty found end) (λ stop. stop ≡ Memory) }
{
    let height = found.height;
    let span = across(begins(mods.first, ty.ty.span), end);
    stmt_node(alloc, StmtKind::Local(found.decls), height, span)
}
