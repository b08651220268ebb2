// All rules at all nodes.
ghost use Rattle.std.specs.Prelude.{◌≡◌, ◌<◌, ◌++◌, true, IfOk, OnOk, length};
ghost use Rattle.std.specs.List.{flat_map};
ghost use Rattle.lint_config.specs.Choices.{allows, are_settings};
ghost use Rattle.lint_config.specs.Rules.{primary_of};
ghost use Rattle.node_store.specs.Forest.{tree_of};
ghost use Rattle.node_store.specs.Fresh.{IsFresh};
ghost use Rattle.rule_sites.specs.Context.{contexts};
ghost use Rattle.rule_sites.specs.ContextAt.{context_at};
ghost use Rattle.rule_sites.specs.Finding.{sites_at};
ghost use Rattle.rule_sites.specs.Ordered.{IsListed};
ghost use Rattle.rules_tree.specs.Findings.{findings};
ghost use Rattle.rules_tree.specs.FirstUses.{AreFirstUses};
ghost use Rattle.rules_tree.specs.Late.{IsFirstBarrier};

use crate::first_uses::{FirstUses, first_uses};
use crate::{
    block_no_empty, comment_no_empty, comment_whitespace_inside,
    declaration_block_no_duplicate_custom_properties, declaration_block_no_duplicate_properties,
    declaration_block_no_shorthand_property_overrides, declaration_no_important,
    keyframe_declaration_no_important, max_nesting_depth, no_empty_source,
    no_invalid_position_at_import_rule,
};
use lint_config::found::Site;
use lint_config::rule::Rule;
use lint_config::setting::{Choice, Setting, Settings};
use node_store::id::NodeId;
use node_store::work::Work;
use rule_sites::order::sort_sites;
use std::alloc::{AllocError, Global};

/// What stands first in a sheet.
#[derive(Drop)]
struct Firsts<'w> {
    /// The first node in the root that no `@import` may follow.
    barrier: u32,
    /// The first declaration of each property in each block.
    uses: FirstUses<'w>,
}

fn firsts_of(alloc: Global, work: &Work) -> Result<Firsts<'_>, AllocError>
    ensures barrier { IfOk result (λ firsts. IsFirstBarrier work.now.nodes firsts.barrier) }
    ensures uses { IfOk result (λ firsts. AreFirstUses work.now.nodes firsts.uses (length work.now.nodes)) }
{
    Ok(Firsts {
        barrier: no_invalid_position_at_import_rule::first_barrier(work),
        uses: first_uses(alloc, work)?,
    })
}

/// Adds the sites of one rule at a node.
fn visit<'w>(
    alloc: Global,
    sites: &mut Vec<Site>,
    work: &'w Work,
    n: NodeId,
    setting: &Setting,
    firsts: &Firsts<'w>,
) -> Result<(), AllocError>
    requires fresh { IsFresh work.now }
    requires given { n < length work.now.nodes }
    requires barrier { IsFirstBarrier work.now.nodes firsts.now.barrier }
    requires uses { AreFirstUses work.now.nodes firsts.now.uses (length work.now.nodes) }
    requires allowed { allows (primary_of setting.now.rule) setting.now.choice ≡ true }
    ensures { OnOk result (sites.new.items ≡ sites.old.items ++ sites_at findings work.now.text setting.now (context_at work.now.nodes n)) }
{
    match setting.rule {
        Rule::BlockNoEmpty => block_no_empty::visit(alloc, sites, work, n),
        Rule::CommentNoEmpty => comment_no_empty::visit(alloc, sites, work, n),
        Rule::CommentWhitespaceInside => comment_whitespace_inside::visit(alloc, sites, work, n),
        Rule::NoEmptySource => no_empty_source::visit(alloc, sites, work, n),
        Rule::NoInvalidPositionAtImportRule => no_invalid_position_at_import_rule::visit(
            alloc,
            sites,
            work,
            n,
            firsts.barrier,
        ),
        Rule::MaxNestingDepth => match setting.choice {
            Choice::Count(most) => max_nesting_depth::visit(alloc, sites, work, n, most),
            _ => Ok(()),
        },
        Rule::DeclarationBlockNoDuplicateCustomProperties =>
            declaration_block_no_duplicate_custom_properties::visit(
                alloc,
                sites,
                work,
                n,
                &firsts.uses,
            ),
        Rule::DeclarationBlockNoDuplicateProperties =>
            declaration_block_no_duplicate_properties::visit(alloc, sites, work, n, &firsts.uses),
        Rule::DeclarationBlockNoShorthandPropertyOverrides =>
            declaration_block_no_shorthand_property_overrides::visit(
                alloc,
                sites,
                work,
                n,
                &firsts.uses,
            ),
        Rule::DeclarationNoImportant => declaration_no_important::visit(alloc, sites, work, n),
        Rule::KeyframeDeclarationNoImportant => keyframe_declaration_no_important::visit(
            alloc, sites, work, n,
        ),
        Rule::ShorthandPropertyNoRedundantValues => Ok(()),
        Rule::ColorNoInvalidHex => Ok(()),
        Rule::ColorHexLength => Ok(()),
        Rule::LengthZeroNoUnit => Ok(()),
        Rule::UnitNoUnknown => Ok(()),
        Rule::NoDuplicateSelectors => Ok(()),
        Rule::SelectorMaxId => Ok(()),
        Rule::SelectorMaxSpecificity => Ok(()),
        Rule::SelectorPseudoElementColonNotation => Ok(()),
    }
}

/// Adds the sites of all rules at a node, rule by rule.
fn visit_all<'w>(
    alloc: Global,
    sites: &mut Vec<Site>,
    work: &'w Work,
    n: NodeId,
    settings: &[Setting],
    firsts: &Firsts<'w>,
) -> Result<(), AllocError>
    requires fresh { IsFresh work.now }
    requires given { n < length work.now.nodes }
    requires barrier { IsFirstBarrier work.now.nodes firsts.now.barrier }
    requires uses { AreFirstUses work.now.nodes firsts.now.uses (length work.now.nodes) }
    requires allowed { are_settings settings.now ≡ true }
    ensures { OnOk result (sites.new.items ≡ sites.old.items ++ flat_map (λ setting. sites_at findings work.now.text setting (context_at work.now.nodes n)) settings.now) }
{
    for setting in settings {
        visit(alloc, sites, work, n, setting, firsts)?;
    }
    Ok(())
}

/// The sites of the rules that are on, of those that look at the tree of a sheet, in the order of byte, rule name and text. The
/// work is as `parse` left it; other settings add nothing. The rules are stylelint's, in this project's profile.
///
/// # Errors
///
/// Only when out of memory.
pub fn check_tree(alloc: Global, work: &Work, settings: &Settings) -> Result<Vec<Site>, AllocError>
    requires fresh { IsFresh work.now }
    requires settings { are_settings settings.now.rules.items ≡ true }
    ensures { IfOk result (λ sites. IsListed findings work.now.text (contexts (tree_of work.now)) settings.now.rules.items sites.items) }
{
    work.facts();
    let firsts = firsts_of(alloc, work)?;
    let mut sites = Vec::new(alloc);
    for n in 0..work.node_total() {
        visit_all(
            alloc,
            &mut sites,
            work,
            NodeId::new(n),
            settings.rules.as_slice(),
            &firsts,
        )?;
    }
    sort_sites(&mut sites)?;
    Ok(sites)
}
