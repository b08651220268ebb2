// The body of a node up to its children.
ghost use Rattle.std.specs.Prelude.{◌≡◌, ◌∷◌, [], OnOk, if◌then◌else◌};
ghost use Rattle.std.specs.Str.{chars};
ghost use Rattle.css_tree.specs.Parts.{kind_of};
ghost use Rattle.css_tree.specs.declared.node.Kind.TheVariants as Kind;
ghost use Rattle.css_tree.specs.Print.{opening, brace_open};
ghost use Rattle.stringify.specs.Sheet.{put};

use crate::output::Output;
use css_tree::node::{Block, NodeText};
use std::alloc::AllocError;

fn write_brace(block: &Option<Block>, out: &mut Output) -> Result<(), AllocError>
    ensures { OnOk result (out.new ≡ put (brace_open block.now) out.old) }
{
    match block {
        Some(_) => out.push('{'),
        None => Ok(()),
    }
}

fn write_bom(bom: bool, out: &mut Output) -> Result<(), AllocError>
    ensures { OnOk result (out.new ≡ put (if bom then 0xfeff ∷ [] else []) out.old) }
{
    if bom { out.push('\u{feff}') } else { Ok(()) }
}

fn write_if(flag: bool, text: &str, out: &mut Output) -> Result<(), AllocError>
    ensures { OnOk result (out.new ≡ put (if flag then chars text.now else []) out.old) }
{
    if flag { out.push_str(text) } else { Ok(()) }
}

fn write_at_rule(text: &NodeText, out: &mut Output) -> Result<(), AllocError>
    requires { kind_of text.now ≡ Kind.AtRule }
    ensures { OnOk result (out.new ≡ put (opening text.now) out.old) }
{
    match text {
        NodeText::AtRule {
            name,
            after_name,
            params,
            between,
            block,
            ..
        } => {
            out.push('@')?;
            out.push_str(name.as_str())?;
            out.push_str(after_name.as_str())?;
            out.push_str(params.source.as_str())?;
            out.push_str(between.as_str())?;
            write_brace(block, out)?;
            Ok(())
        }
        _ => unreachable!(),
    }
}

fn write_rule(text: &NodeText, out: &mut Output) -> Result<(), AllocError>
    requires { kind_of text.now ≡ Kind.Rule }
    ensures { OnOk result (out.new ≡ put (opening text.now) out.old) }
{
    match text {
        NodeText::Rule {
            selector,
            between,
            ..
        } => {
            out.push_str(selector.source.as_str())?;
            out.push_str(between.as_str())?;
            out.push('{')?;
            Ok(())
        }
        _ => unreachable!(),
    }
}

fn write_declaration(text: &NodeText, out: &mut Output) -> Result<(), AllocError>
    requires { kind_of text.now ≡ Kind.Declaration }
    ensures { OnOk result (out.new ≡ put (opening text.now) out.old) }
{
    match text {
        NodeText::Declaration {
            prop,
            between,
            value,
            important,
            important_raw,
            tail,
            ..
        } => {
            out.push_str(prop.as_str())?;
            out.push_str(between.as_str())?;
            out.push_str(value.source.as_str())?;
            write_if(*important, important_raw.as_str(), out)?;
            out.push_str(tail.as_str())?;
            Ok(())
        }
        _ => unreachable!(),
    }
}

fn write_comment(text: &NodeText, out: &mut Output) -> Result<(), AllocError>
    requires { kind_of text.now ≡ Kind.Comment }
    ensures { OnOk result (out.new ≡ put (opening text.now) out.old) }
{
    match text {
        NodeText::Comment {
            left,
            text,
            right,
            ..
        } => {
            out.push('/')?;
            out.push('*')?;
            out.push_str(left.as_str())?;
            out.push_str(text.as_str())?;
            out.push_str(right.as_str())?;
            out.push('*')?;
            out.push('/')?;
            Ok(())
        }
        _ => unreachable!(),
    }
}

/// Prints the body of a node up to its children.
pub fn write_opening(text: &NodeText, out: &mut Output) -> Result<(), AllocError>
    ensures { OnOk result (out.new ≡ put (opening text.now) out.old) }
{
    match text {
        NodeText::Root { bom, .. } => write_bom(*bom, out),
        NodeText::AtRule { .. } => write_at_rule(text, out),
        NodeText::Rule { .. } => write_rule(text, out),
        NodeText::Declaration { .. } => write_declaration(text, out),
        NodeText::Comment { .. } => write_comment(text, out),
    }
}
