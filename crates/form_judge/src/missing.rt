// Suffering from being missing.
ghost use Rattle.std.specs.Prelude.{◌≡◌};
ghost use Rattle.form_tree.specs.Elements.{kind_of};
ghost use Rattle.form_tree.specs.RadioGroup.{is_radio, is_radio_kind};
ghost use Rattle.form_judge.specs.Flags.{has_no_files, lacks_check, lacks_file, lacks_in_mode, lacks_text, suffers_from_being_missing};

use crate::barring::is_read_only;
use crate::control::{applies_to_input, applies_to_text, has_empty_value, is_input, is_textarea};
use crate::flags::Facts;
use form_tree::{Node, Tag};
use form_types::{Attr, Kind, Mode, mode_of};

/// Whether the control suffers from being missing (HTML, "The required attribute" and the sections of
/// the states and elements that it names).
pub fn suffers_from_being_missing(node: &Node, kind: Kind, facts: &Facts) -> bool
    requires { kind ≡ kind_of node.now }
    ensures { result ≡ suffers_from_being_missing node.now facts.now }
{
    if is_input(node) {
        return lacks_in_mode(mode_of(kind), node, kind, facts);
    }
    if is_textarea(node) {
        return lacks_text(node, kind, facts);
    }
    node.tag.is_select() && facts.select_missing
}

// What an input lacks, by the mode of its state.
fn lacks_in_mode(mode: Mode, node: &Node, kind: Kind, facts: &Facts) -> bool
    requires { kind ≡ kind_of node.now }
    ensures { result ≡ lacks_in_mode mode node.now facts.now }
{
    match mode {
        Mode::Value => lacks_text(node, kind, facts),
        Mode::Default => false,
        Mode::DefaultOn => if is_radio(node, kind) {
            facts.group_missing
        } else {
            lacks_check(node)
        },
        Mode::Filename => lacks_file(node),
    }
}

// Whether a text control is required and mutable, and its value is empty.
fn lacks_text(node: &Node, kind: Kind, facts: &Facts) -> bool
    requires { kind ≡ kind_of node.now }
    ensures { result ≡ lacks_text node.now facts.now }
{
    if !(applies_to_text(node, kind, Attr::Required) && node.has_attr("required")) {
        return false;
    }
    if is_read_only(node, kind) || facts.disabled {
        return false;
    }
    has_empty_value(node)
}

fn lacks_check(node: &Node) -> bool
    ensures { result ≡ lacks_check node.now }
{
    node.has_attr("required") && !node.state.checked
}

fn lacks_file(node: &Node) -> bool
    ensures { result ≡ lacks_file node.now }
{
    node.has_attr("required") && are_none(node.state.files.as_slice())
}

fn are_none(files: &[u32]) -> bool
    ensures { result ≡ has_no_files files.now }
{
    files.is_empty()
}

fn is_radio(node: &Node, kind: Kind) -> bool
    requires { kind ≡ kind_of node.now }
    ensures { result ≡ is_radio node.now }
{
    is_input(node) && is_radio_kind(kind)
}

fn is_radio_kind(kind: Kind) -> bool
    ensures { result ≡ is_radio_kind kind }
{
    matches!(kind, Kind::Radio)
}
