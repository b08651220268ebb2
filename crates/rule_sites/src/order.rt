// The order in which sites are listed.
ghost use Rattle.std.specs.Prelude.{◌≡◌, OnOk};
ghost use Rattle.std.specs.List.Sorted.{IsPermutation};
ghost use Rattle.rule_sites.specs.Ordered.{AreInOrder, text_cmp, site_cmp};

use lint_config::found::Site;
use std::alloc::AllocError;
use std::cmp::Ordering;

/// How the names of two sites' rules stand to one another, and then their texts.
fn compare_texts(a: &Site, b: &Site) -> Ordering
    ensures { result ≡ text_cmp a.now b.now }
{
    let names = a.rule.name().cmp(&b.rule.name());
    names.then_with(|| a.text.as_str().cmp(&b.text.as_str()))
}

/// How a site stands to another: by their bytes, then by the names of their rules, then by their texts.
fn compare(a: &Site, b: &Site) -> Ordering
    ensures { result ≡ site_cmp a.now b.now }
{
    a.at.cmp(&b.at).then_with(|| compare_texts(a, b))
}

/// Puts the sites in the order of their bytes; those of one byte in the order of their rules' names, and then of
/// their texts. Names and texts compare by their bytes in UTF-8.
///
/// # Errors
///
/// Only when out of memory; the list has the same sites then.
pub fn sort_sites(sites: &mut Vec<Site>) -> Result<(), AllocError>
    ensures all { IsPermutation sites.old.items sites.new.items }
    ensures in_order { OnOk result (AreInOrder sites.new.items) }
{
    sites.sort_by(|a, b| compare(a, b))
}
