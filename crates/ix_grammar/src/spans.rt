//! Where a node stands, and how high the base of a type is.
ghost use Rattle.std.specs.Prelude.{◌≡◌, ◌≤◌};
ghost use Rattle.ix_grammar.specs.Nodes as nodes;
ghost use Rattle.ix_grammar.specs.TypeGrammar as spec;

use ix_text::Span;
use ix_tree::BaseTree;

/// The piece of text from the first of two places to the end of the second.
pub fn across(first: Span, last: Span) -> Span
    ensures { result ≡ nodes.across first last }
{
    Span {
        from: first.from,
        to: last.to,
    }
}

/// The height of what a type stands on.
pub fn base_height(base: &BaseTree) -> u32
    ensures { record {
      is : result ≡ spec.base_height base.now;
      low : result ≤ 1;
    } }
{
    match base {
        BaseTree::Int => 0,
        BaseTree::Boolean => 0,
        BaseTree::Named(_) => 1,
    }
}
