// Declarations that are marked important.
ghost use Rattle.std.specs.Prelude.{◌≡◌, ◌<◌, ◌++◌, OnOk, length, map};
ghost use Rattle.node_store.specs.Fresh.{IsFresh};
ghost use Rattle.rule_sites.specs.ContextAt.{context_at};
ghost use Rattle.rule_sites.specs.Finding.{site_of};
ghost use Rattle.rules_tree.specs.DeclarationNoImportant.{findings};

use crate::important::{is_marked, mark_of};
use lint_config::found::Site;
use lint_config::rule::Rule;
use node_store::id::NodeId;
use node_store::work::Work;
use rule_sites::reads;
use rule_sites::sites::push_message;
use std::alloc::{AllocError, Global};

/// Adds the site of the node where it is a declaration that is marked important.
///
/// # Errors
///
/// Only when out of memory.
#[tactic(auto, unfolding(crate::specs::DeclarationNoImportant::findings, rule_sites::specs::ContextAt::context_at))]
pub fn visit(alloc: Global, sites: &mut Vec<Site>, work: &Work, n: NodeId) -> Result<(), AllocError>
    requires fresh { IsFresh work.now }
    requires given { n < length work.now.nodes }
    ensures { OnOk result (sites.new.items ≡ sites.old.items ++ map (site_of work.now.text Rule.DeclarationNoImportant) (findings (context_at work.now.nodes n))) }
{
    if is_marked(reads::text_of(work, n)) {
        let at = mark_of(work, n);
        push_message(
            alloc,
            sites,
            work,
            Rule::DeclarationNoImportant,
            at,
            "Unexpected !important",
        )?;
    }
    Ok(())
}
