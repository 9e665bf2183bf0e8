//! What methods promise where they return.
ghost use Rattle.std.specs.Prelude.{◌≡◌, ◌++◌, option_map, IfOk, OnOk};
ghost use Rattle.ix_core.specs.Posts as core;
ghost use Rattle.ix_meaning.specs.Inheritance.{if_instance};
ghost use Rattle.ix_plain.specs.Program as spec;
ghost use Rattle.ix_plain.specs.Scope as scope;
ghost use Rattle.ix_symbols.specs.Numbered.{shown};
ghost use Rattle.ix_class_members.specs.World.{callee};
ghost use Rattle.ix_lower.specs.Homes.{shown_tables};

use crate::home::Tables;
use ix_class_members::Called;
use ix_core::Post;
use ix_symbols::Table;
use ix_text::{List, Span};
use ix_tree::MethodDecl;
use std::alloc::{AllocError, Global};

/// Whether one of them speaks of one answer.
pub fn some_conditional(posts: &[Post]) -> bool
    ensures { result ≡ core.some_conditional posts.now }
{
    for post in posts {
        if post.when.is_some() {
            return true;
        }
    }
    false
}

fn push_all(posts: &mut List<Post>, more: &[Post]) -> Result<(), AllocError>
    ensures { OnOk result (posts.new ≡ posts.old ++ more.now) }
{
    for post in more {
        posts.push(*post)?;
    }
    Ok(())
}

/// Adds what the method that is declared at that place promises by itself.
fn push_declared(posts: &mut List<Post>, table: &Table, span: Span) -> Result<(), AllocError>
    ensures { OnOk result (posts.new ≡ posts.old ++ scope.declared_posts ((shown table.now).declared span)) }
{
    match table.declared(span) {
        None => Ok(()),
        Some(declared) => push_all(posts, declared.claims.posts.as_slice()),
    }
}

/// Adds what a method promises, if it is an instance method.
fn push_called(
    posts: &mut List<Post>,
    table: &Table,
    called: Option<Called<'_>>,
) -> Result<(), AllocError>
    ensures { OnOk result (posts.new ≡ posts.old ++ spec.posts_of (shown table.now) (if_instance (option_map callee called.entry))) }
{
    match called {
        Some(called) => {
            if called.signature.is_static {
                return Ok(());
            }
            push_declared(posts, table, called.signature.span)
        }
        None => Ok(()),
    }
}

/// Adds what the instance methods of that name in these classes promise.
fn push_upper(
    posts: &mut List<Post>,
    tables: &Tables<'_>,
    name: &str,
    classes: &[u32],
) -> Result<(), AllocError>
    ensures { OnOk result (posts.new ≡ posts.old ++ spec.posts_in (shown_tables tables.now) name.now classes.now) }
{
    for class in classes {
        let called = tables.world.own_method(*class, name);
        push_called(posts, tables.table, called)?;
    }
    Ok(())
}

/// What a method of that class promises: by itself, and behind it what the methods promise that it overrides, the nearest first.
pub fn posts(
    alloc: Global,
    tables: &Tables<'_>,
    class: u32,
    decl: &MethodDecl,
) -> Result<List<Post>, AllocError>
    ensures { IfOk result (λ posts. posts ≡ scope.declared_posts ((shown_tables tables.now).names.declared decl.now.name.span) ++ spec.upper_posts (shown_tables tables.now) class decl.now) }
{
    let mut posts = List::new(alloc);
    let declared = push_declared(&mut posts, tables.table, decl.name.span);
    if decl.constructor || decl.mods.is_static {
        return declared.and(Ok(posts));
    }
    let classes = tables.world.supers(class);
    declared
        .and(push_upper(&mut posts, tables, decl.name.text.as_str(), classes))
        .and(Ok(posts))
}
