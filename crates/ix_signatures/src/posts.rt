//! What posts of methods add.

ghost use Rattle.std.specs.Prelude.{◌≡◌, ◌++◌, OnOk};
ghost use Rattle.ix_core.specs.Objects.{post_names};
ghost use Rattle.ix_core.specs.Posts.{same_when};
ghost use Rattle.ix_facts.specs.Assume.{claim_facts};
ghost use Rattle.ix_facts.specs.Exact.{if_so};
ghost use Rattle.ix_rules_hold.specs.MachineSteps.{on_paths};
ghost use Rattle.ix_signatures.specs.Naming.{path_by, AreSmallNames, AreSmallPosts};
ghost use Rattle.ix_signatures.specs.Signs.{posts_facts};

use crate::naming::Naming;
use ix_core::{Fact, Post};
use ix_transfer_rules::push_claim;
use std::alloc::AllocError;

/// Whether the post is of this answer, or of every return where none is given.
fn is_of(post: &Post, wanted: Option<bool>) -> bool
    ensures { result ≡ same_when post.now.when wanted }
{
    match (post.when, wanted) {
        (None, None) => true,
        (Some(true), Some(answer)) => answer,
        (Some(false), Some(answer)) => !answer,
        _ => false,
    }
}

fn push_post(
    out: &mut Vec<Fact>,
    naming: &Naming<'_>,
    wanted: Option<bool>,
    post: &Post,
) -> Result<(), AllocError>
    requires small { AreSmallNames (post_names post.now) }
    ensures { OnOk result (out.new.items ≡ out.old.items ++ if_so (same_when post.now.when wanted) (claim_facts (on_paths (path_by naming.now) post.now.claim) (path_by naming.now post.now.on))) }
{
    if !is_of(post, wanted) {
        return Ok(());
    }
    push_claim(out, &naming.claim(&post.claim), &naming.path(&post.on))
}

/// What the posts of this answer add, or those of every return where none is given. The only error is want of memory.
pub fn push_posts(
    out: &mut Vec<Fact>,
    naming: &Naming<'_>,
    wanted: Option<bool>,
    posts: &[Post],
) -> Result<(), AllocError>
    requires small { AreSmallPosts posts.now }
    ensures { OnOk result (out.new.items ≡ out.old.items ++ posts_facts (path_by naming.now) wanted posts.now) }
{
    for post in posts {
        push_post(out, naming, wanted, post)?;
    }
    Ok(())
}
