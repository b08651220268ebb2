// Fields and raws of a node.
ghost use Rattle.std.specs.Prelude.{◌≡◌};
ghost use Rattle.std.specs.Str.{chars};
ghost use Rattle.css_tree.specs.declared.node.Field.TheVariants as F;
ghost use Rattle.edit_calls.specs.Plans.{setting, shaping, important_text, refused_field, refused_raw};
ghost use Rattle.edit_calls.specs.Checks.{checked};
ghost use Rattle.edit_calls.specs.Answers.{Answers};

use css_text::stop::Stop;
use css_tree::node::{Field, Raw};
use node_store::fault::TreeFault;
use node_store::id::NodeId;
use node_store::parts;
use node_store::work::Work;

fn important_mark(on: bool) -> &'static str
    ensures { chars result.now ≡ important_text on }
{
    match on {
        true => " !important",
        false => "",
    }
}

fn check_field(work: &Work, n: NodeId, field: Field) -> Result<(), TreeFault>
    ensures { result ≡ checked (refused_field work.now.nodes n field) }
{
    match parts::field(work.node_text(n)?, field) {
        Some(_) => Ok(()),
        None => Err(TreeFault::WrongKind),
    }
}

fn check_raw(work: &Work, n: NodeId, raw: Raw) -> Result<(), TreeFault>
    ensures { result ≡ checked (refused_raw work.now.nodes n raw) }
{
    work.raw(n, raw)?;
    Ok(())
}

fn set(work: &mut Work, n: NodeId, field: Field, text: &str) -> Result<(), Stop<TreeFault>>
    ensures { Answers (setting work.old.nodes n field (chars text.now)) work.old work.new result }
{
    check_field(work, n, field).map_err(Stop::Fault)?;
    work.set_field(n, field, text).map_err(Stop::Memory)
}

/// Sets a declaration's property. Refused as NoSuchNode where the number was never given out, and then as WrongKind where
/// the node isn't a declaration. A property that is there already makes no edit.
pub fn set_prop(work: &mut Work, n: NodeId, text: &str) -> Result<(), Stop<TreeFault>>
    ensures { Answers (setting work.old.nodes n F.Prop (chars text.now)) work.old work.new result }
{
    set(work, n, Field::Prop, text)
}

/// Sets a declaration's value, as it is written. Refused as `set_prop`. One that is the value without its comments already
/// makes no edit.
pub fn set_value(work: &mut Work, n: NodeId, text: &str) -> Result<(), Stop<TreeFault>>
    ensures { Answers (setting work.old.nodes n F.Value (chars text.now)) work.old work.new result }
{
    set(work, n, Field::Value, text)
}

/// Sets a rule's selector, as it is written. Refused as NoSuchNode, and then as WrongKind where the node isn't a rule.
pub fn set_selector(work: &mut Work, n: NodeId, text: &str) -> Result<(), Stop<TreeFault>>
    ensures { Answers (setting work.old.nodes n F.Selector (chars text.now)) work.old work.new result }
{
    set(work, n, Field::Selector, text)
}

/// Sets an at-rule's name, without the `@`. Refused as NoSuchNode, and then as WrongKind where the node isn't an at-rule.
pub fn set_name(work: &mut Work, n: NodeId, text: &str) -> Result<(), Stop<TreeFault>>
    ensures { Answers (setting work.old.nodes n F.Name (chars text.now)) work.old work.new result }
{
    set(work, n, Field::Name, text)
}

/// Sets an at-rule's parameters, as they are written. Refused as `set_name`.
pub fn set_params(work: &mut Work, n: NodeId, text: &str) -> Result<(), Stop<TreeFault>>
    ensures { Answers (setting work.old.nodes n F.Params (chars text.now)) work.old work.new result }
{
    set(work, n, Field::Params, text)
}

/// Sets a comment's text, without the white space at its ends. Refused as NoSuchNode, and then as WrongKind where the node
/// isn't a comment.
pub fn set_comment_text(work: &mut Work, n: NodeId, text: &str) -> Result<(), Stop<TreeFault>>
    ensures { Answers (setting work.old.nodes n F.Text (chars text.now)) work.old work.new result }
{
    set(work, n, Field::Text, text)
}

/// Marks a declaration as important, with ` !important`, or takes the mark away. Refused as `set_prop`.
pub fn set_important(work: &mut Work, n: NodeId, on: bool) -> Result<(), Stop<TreeFault>>
    ensures { Answers (setting work.old.nodes n F.Important (important_text on)) work.old work.new result }
{
    set(work, n, Field::Important, important_mark(on))
}

/// Sets a raw. A container's semicolon is there where the text isn't empty. Refused as NoSuchNode, and then as WrongKind
/// where the node's kind has no such raw. No raw marks its node.
pub fn set_raw(work: &mut Work, n: NodeId, raw: Raw, text: &str) -> Result<(), Stop<TreeFault>>
    ensures { Answers (shaping work.old.nodes n raw (chars text.now)) work.old work.new result }
{
    check_raw(work, n, raw).map_err(Stop::Fault)?;
    work.set_shape(n, raw, text).map_err(Stop::Memory)
}
