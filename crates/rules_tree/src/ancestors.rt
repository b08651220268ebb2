// What the rules ask of a node's ancestors.
ghost use Rattle.std.specs.Prelude.{◌≡◌, ◌<◌, ◌≤◌, ◌&&◌, not, length, map};
ghost use Rattle.std.specs.List.{list_any};
ghost use Rattle.node_rows.specs.NumberTrees.{tree_at};
ghost use Rattle.node_store.specs.Fresh.{IsFresh};
ghost use Rattle.rule_sites.specs.ContextAt.{ancestors_of};
ghost use Rattle.rule_sites.specs.Keyframes.{is_keyframes};
ghost use Rattle.rules_tree.specs.AtRoot.{is_root_alone};
ghost use Rattle.rules_tree.specs.MaxNestingDepth.{counts, enclosing};

use node_store::id::NodeId;
use node_store::work::Work;
use rule_sites::{blocks, keyframes, reads};

/// Whether the node stands directly at the root.
pub fn is_at_root(work: &Work, n: NodeId) -> bool
    requires { n < length work.now.nodes }
    ensures { result ≡ is_root_alone (map (tree_at work.now.nodes) (ancestors_of work.now.nodes n)) }
{
    work.facts();
    let Some(p) = reads::parent_of(work, n) else {
        return false;
    };
    match reads::parent_of(work, p) {
        Some(_) => false,
        None => blocks::is_root(reads::text_of(work, p)),
    }
}

/// Whether the node is a block that counts as a level: any but an at-rule directly at the root.
fn counts(work: &Work, n: NodeId) -> bool
    requires { n < length work.now.nodes }
    ensures { result ≡ counts (tree_at work.now.nodes n) (map (tree_at work.now.nodes) (ancestors_of work.now.nodes n)) }
{
    let text = reads::text_of(work, n);
    blocks::is_block(text) && !(blocks::is_at_rule(text) && is_at_root(work, n))
}

/// How many levels the node stands in: the blocks that enclose it, but no at-rule directly at the root.
pub fn enclosing(work: &Work, n: NodeId) -> u32
    requires fresh { IsFresh work.now }
    requires given { n < length work.now.nodes }
    ensures { result ≡ enclosing (map (tree_at work.now.nodes) (ancestors_of work.now.nodes n)) }
{
    work.facts();
    let mut levels: u32 = 0;
    let mut at = n;
    'up: while let Some(p) = reads::parent_of(work, at) {
        if counts(work, p) {
            levels += 1;
        }
        at = p;
    }
    levels
}

/// Whether some ancestor of the node is a keyframes at-rule.
pub fn in_keyframes(work: &Work, n: NodeId) -> bool
    requires fresh { IsFresh work.now }
    requires given { n < length work.now.nodes }
    ensures { result ≡ list_any (λ t. is_keyframes t.text) (map (tree_at work.now.nodes) (ancestors_of work.now.nodes n)) }
{
    work.facts();
    let mut at = n;
    'up: while let Some(p) = reads::parent_of(work, at) {
        if keyframes::is_keyframes(reads::text_of(work, p)) {
            return true;
        }
        at = p;
    }
    false
}
