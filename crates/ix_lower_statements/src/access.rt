//! How many array accesses a source has.
ghost use Rattle.std.specs.Prelude.{◌≡◌, map};
ghost use Rattle.ix_plain.specs.Counts as spec;

use crate::count::one_more;
use ix_tree::{ClassDecl, Expr, ExprKind, Init, LocalDecl, Member, MethodDecl, Stmt, StmtKind};

/// So many accesses, and those of an expression.
#[cycle(accesses)]
fn in_expr(expr: &Expr, count: u32) -> u32
    ensures { result ≡ spec.expr_accesses expr.now count }
{
    match &expr.kind {
        ExprKind::Select(part, _)
        | ExprKind::NewArray(_, part)
        | ExprKind::Unary(_, part)
        | ExprKind::Step { target: part, .. } => in_expr(part.get(), count),
        ExprKind::Index(array, index) => {
            let count = in_expr(array.get(), one_more(count));
            in_expr(index.get(), count)
        }
        ExprKind::Call(None, _, args) | ExprKind::New(_, args) => in_exprs(args.as_slice(), count),
        ExprKind::Call(Some(object), _, args) => {
            let count = in_expr(object.get(), count);
            in_exprs(args.as_slice(), count)
        }
        ExprKind::NewItems(_, items) => in_inits(items.as_slice(), count),
        ExprKind::Binary(_, first, second) | ExprKind::Assign(_, first, second) => {
            let count = in_expr(first.get(), count);
            in_expr(second.get(), count)
        }
        ExprKind::Int(_)
        | ExprKind::Bool(_)
        | ExprKind::Null
        | ExprKind::This
        | ExprKind::Name(_) => count,
    }
}

#[cycle(accesses)]
fn in_exprs(exprs: &[Expr], count: u32) -> u32
    ensures { result ≡ spec.exprs_accesses exprs.now count }
{
    let mut count = count;
    for expr in exprs {
        count = in_expr(expr, count);
    }
    count
}

#[cycle(accesses)]
fn in_init(init: &Init, count: u32) -> u32
    ensures { result ≡ spec.init_accesses init.now count }
{
    match init {
        Init::Value(expr) => in_expr(expr, count),
        Init::Items(items, _) => in_inits(items.as_slice(), count),
    }
}

#[cycle(accesses)]
fn in_inits(inits: &[Init], count: u32) -> u32
    ensures { result ≡ spec.all (map spec.init_accesses inits.now) count }
{
    let mut count = count;
    for init in inits {
        count = in_init(init, count);
    }
    count
}

fn in_decl(decl: &LocalDecl, count: u32) -> u32
    ensures { result ≡ spec.decl_accesses decl.now count }
{
    match &decl.init {
        None => count,
        Some(init) => in_init(init, count),
    }
}

fn in_decls(decls: &[LocalDecl], count: u32) -> u32
    ensures { result ≡ spec.all_of spec.decl_accesses decls.now count }
{
    let mut count = count;
    for decl in decls {
        count = in_decl(decl, count);
    }
    count
}

fn in_maybe(expr: &Option<Expr>, count: u32) -> u32
    ensures { result ≡ spec.maybe_of spec.expr_accesses expr.now count }
{
    match expr {
        None => count,
        Some(expr) => in_expr(expr, count),
    }
}

/// So many accesses, and those of a statement.
#[cycle(statements)]
fn in_stmt(stmt: &Stmt, count: u32) -> u32
    ensures { result ≡ spec.stmt_accesses stmt.now count }
{
    match &stmt.kind {
        StmtKind::Block(statements) => in_stmts(statements.as_slice(), count),
        StmtKind::Local(decls) => in_decls(decls.as_slice(), count),
        StmtKind::If(condition, first, None) => in_stmt(first.get(), in_expr(condition, count)),
        StmtKind::If(condition, first, Some(second)) => {
            let count = in_stmt(first.get(), in_expr(condition, count));
            in_stmt(second.get(), count)
        }
        StmtKind::While(condition, turn) => in_stmt(turn.get(), in_expr(condition, count)),
        StmtKind::Do(turn, condition) => in_expr(condition, in_stmt(turn.get(), count)),
        StmtKind::For(first, condition, update, turn) => {
            let count = in_stmts(first.as_slice(), count);
            let count = in_maybe(condition, count);
            let count = in_exprs(update.as_slice(), count);
            in_stmt(turn.get(), count)
        }
        StmtKind::Return(value) => in_maybe(value, count),
        StmtKind::Print(expr) | StmtKind::Run(expr) => in_expr(expr, count),
        StmtKind::Empty | StmtKind::Break | StmtKind::Continue | StmtKind::Throw(_) => count,
    }
}

#[cycle(statements)]
fn in_stmts(statements: &[Stmt], count: u32) -> u32
    ensures { result ≡ spec.all_of spec.stmt_accesses statements.now count }
{
    let mut count = count;
    for stmt in statements {
        count = in_stmt(stmt, count);
    }
    count
}

fn in_method(decl: &MethodDecl, count: u32) -> u32
    ensures { result ≡ spec.method_accesses decl.now count }
{
    match &decl.parent_args {
        None => in_stmts(decl.body.as_slice(), count),
        Some(args) => in_stmts(decl.body.as_slice(), in_exprs(args.as_slice(), count)),
    }
}

fn in_member(member: &Member, count: u32) -> u32
    ensures { result ≡ spec.member_accesses member.now count }
{
    match member {
        Member::Field(decl) => in_decl(decl, count),
        Member::Method(decl) => in_method(decl, count),
    }
}

fn in_members(members: &[Member], count: u32) -> u32
    ensures { result ≡ spec.all_of spec.member_accesses members.now count }
{
    let mut count = count;
    for member in members {
        count = in_member(member, count);
    }
    count
}

/// The array accesses of a source.
pub fn accesses(decls: &[ClassDecl]) -> u32
    ensures { result ≡ spec.accesses decls.now 0 }
{
    let mut count = 0;
    for decl in decls {
        count = in_members(decl.members.as_slice(), count);
    }
    count
}
