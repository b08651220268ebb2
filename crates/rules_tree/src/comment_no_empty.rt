// Comments without text.
ghost use Rattle.std.specs.Prelude.{◌≡◌, ◌<◌, ◌++◌, OnOk, length, map};
ghost use Rattle.node_store.specs.Fresh.{IsFresh};
ghost use Rattle.rule_sites.specs.ContextAt.{context_at};
ghost use Rattle.rule_sites.specs.Finding.{site_of};
ghost use Rattle.rules_tree.specs.CommentNoEmpty.{is_empty_comment, findings};

use css_tree::node::NodeText;
use lint_config::found::Site;
use lint_config::rule::Rule;
use node_store::id::NodeId;
use node_store::work::Work;
use rule_sites::reads;
use rule_sites::sites::push_message;
use std::alloc::{AllocError, Global};

fn is_empty_comment(text: &NodeText) -> bool
    ensures { result ≡ is_empty_comment text.now }
{
    match text {
        NodeText::Comment { text, .. } => text.as_str().is_empty(),
        _ => false,
    }
}

/// Adds the site of the node where it is a comment without text.
///
/// # Errors
///
/// Only when out of memory.
#[tactic(auto, unfolding(crate::specs::CommentNoEmpty::findings, rule_sites::specs::ContextAt::context_at))]
pub fn visit(alloc: Global, sites: &mut Vec<Site>, work: &Work, n: NodeId) -> Result<(), AllocError>
    requires fresh { IsFresh work.now }
    requires given { n < length work.now.nodes }
    ensures { OnOk result (sites.new.items ≡ sites.old.items ++ map (site_of work.now.text Rule.CommentNoEmpty) (findings (context_at work.now.nodes n))) }
{
    if is_empty_comment(reads::text_of(work, n)) {
        let at = reads::start_of(work, n);
        push_message(
            alloc,
            sites,
            work,
            Rule::CommentNoEmpty,
            at,
            "Unexpected empty comment",
        )?;
    }
    Ok(())
}
