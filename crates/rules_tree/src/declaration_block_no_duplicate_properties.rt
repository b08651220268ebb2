// A property that an earlier declaration of its block has, in any case.
ghost use Rattle.std.specs.Prelude.{◌≡◌, ◌<◌, ◌++◌, ◌&&◌, not, OnOk, length, map};
ghost use Rattle.std.specs.List.{list_any};
ghost use Rattle.std.specs.Str.{chars};
ghost use Rattle.node_rows.specs.NumberTrees.{tree_at};
ghost use Rattle.node_store.specs.Fresh.{IsFresh};
ghost use Rattle.rule_sites.specs.ContextAt.{context_at, earlier_of};
ghost use Rattle.rule_sites.specs.Finding.{site_of};
ghost use Rattle.rules_tree.specs.FirstUses.{AreFirstUses};
ghost use Rattle.rules_tree.specs.Properties.{is_same, props_of};
ghost use Rattle.rules_tree.specs.DeclarationBlockNoDuplicateProperties.{is_ignored, findings};

use crate::duplicates;
use crate::first_uses::{FirstUses, is_used_before};
use crate::names::{begins, is_text};
use crate::property::{is_custom, prop_of};
use lint_config::found::Site;
use lint_config::rule::Rule;
use node_store::id::NodeId;
use node_store::work::Work;
use rule_sites::reads;
use rule_sites::sites::push_site;
use std::alloc::{AllocError, Global};

/// Whether nothing is said of the property: it is a custom one, a variable of a preprocessor, or `src`.
fn is_ignored(prop: &str) -> bool
    ensures { result ≡ is_ignored (chars prop.now) }
{
    is_custom(prop) || begins(prop, b'$') || is_text(prop, "src")
}

/// Whether a declaration before the node, in the same block, has the property, which is not ignored.
fn is_duplicate<'w>(uses: &FirstUses<'w>, work: &Work, n: NodeId, prop: &'w str) -> bool
    requires fresh { IsFresh work.now }
    requires given { n < length work.now.nodes }
    requires uses { AreFirstUses work.now.nodes uses.now (length work.now.nodes) }
    ensures { result ≡ (not (is_ignored (chars prop.now)) && list_any (is_same (chars prop.now)) (props_of (map (tree_at work.now.nodes) (earlier_of work.now.nodes n)))) }
{
    if is_ignored(prop) {
        return false;
    }
    is_used_before(uses, work, n, prop)
}

/// Adds the site of the node where it is a declaration of a property that an earlier one of its block has, in any
/// case; custom properties, variables of preprocessors and `src` are ignored.
///
/// # Errors
///
/// Only when out of memory.
#[tactic(auto, unfolding(crate::specs::DeclarationBlockNoDuplicateProperties::findings, rule_sites::specs::ContextAt::context_at))]
pub fn visit<'w>(
    alloc: Global,
    sites: &mut Vec<Site>,
    work: &'w Work,
    n: NodeId,
    uses: &FirstUses<'w>,
) -> Result<(), AllocError>
    requires fresh { IsFresh work.now }
    requires given { n < length work.now.nodes }
    requires uses { AreFirstUses work.now.nodes uses.now (length work.now.nodes) }
    ensures { OnOk result (sites.new.items ≡ sites.old.items ++ map (site_of work.now.text Rule.DeclarationBlockNoDuplicateProperties) (findings (context_at work.now.nodes n))) }
{
    let Some(prop) = prop_of(reads::text_of(work, n)) else {
        return Ok(());
    };
    if is_duplicate(uses, work, n, prop) {
        let text = duplicates::message(alloc, prop)?;
        let at = reads::start_of(work, n);
        push_site(
            sites,
            work,
            Rule::DeclarationBlockNoDuplicateProperties,
            at,
            text,
            None,
        )?;
    }
    Ok(())
}
