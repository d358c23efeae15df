//! Lists of items in a text: one space before each item.
ghost use Rattle.kpn_command_base.specs.Added.{Adds};
ghost use Rattle.kpn_command_base.specs.ListText.{list_line, spaced_items};

use crate::pieces::Pushed;

/// `NAME:`, the items with a space before each, and a line feed.
pub fn push_list(text: &mut String, name: &str, items: &[i64]) -> Pushed
    ensures { Adds result text.old text.new (list_line name.now items.now) }
{
    write!(text, "{name}:")?;
    push_spaced_items(text, items)?;
    text.push_str("\n")
}

/// The items with a space before each.
pub fn push_spaced_items(text: &mut String, items: &[i64]) -> Pushed
    ensures { Adds result text.old text.new (spaced_items items.now) }
{
    for item in items {
        write!(text, " {item}")?;
    }
    Ok(())
}
