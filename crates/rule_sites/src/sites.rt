// Listing what rules find.
ghost use Rattle.std.specs.Prelude.{◌≡◌, [], ◌∷◌, ◌++◌, OnOk, OnErr, encode_utf8_all};
ghost use Rattle.std.specs.Str.{IsCharBoundary, chars};
ghost use Rattle.rule_sites.specs.Finding.{site_of, unmended};

use css_text::txt::Txt;
use lint_config::found::{Repair, Site};
use lint_config::rule::Rule;
use node_store::work::Work;
use std::alloc::{AllocError, Global};

/// Adds the site of what a rule found at that byte of the sheet, with the place of the byte.
///
/// # Errors
///
/// Only when out of memory; the list is unchanged then.
pub fn push_site(
    sites: &mut Vec<Site>,
    work: &Work,
    rule: Rule,
    at: u32,
    text: Txt,
    repair: Option<Repair>,
) -> Result<(), AllocError>
    requires { IsCharBoundary (encode_utf8_all work.now.text) at }
    ensures added { OnOk result (sites.new.items ≡ sites.old.items ++ site_of work.now.text rule (record { at = at; text = text; repair = repair }) ∷ []) }
    ensures err { OnErr result (sites.new.items ≡ sites.old.items) }
{
    let place = work.text().place(at);
    sites.push(Site {
        rule,
        at,
        place,
        text,
        repair,
    })?;
    Ok(())
}

/// Adds the site of what is not mended, with a copy of the message.
///
/// # Errors
///
/// Only when out of memory; the list is unchanged then.
pub fn push_message(
    alloc: Global,
    sites: &mut Vec<Site>,
    work: &Work,
    rule: Rule,
    at: u32,
    message: &str,
) -> Result<(), AllocError>
    requires { IsCharBoundary (encode_utf8_all work.now.text) at }
    ensures added { OnOk result (sites.new.items ≡ sites.old.items ++ site_of work.now.text rule (unmended at (chars message.now)) ∷ []) }
    ensures err { OnErr result (sites.new.items ≡ sites.old.items) }
{
    let text = Txt::new(alloc, message)?;
    push_site(sites, work, rule, at, text, None)
}
