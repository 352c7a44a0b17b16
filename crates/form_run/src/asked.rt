// What a line asks for.
ghost use Rattle.std.specs.Prelude.{◌≡◌, None};
ghost use Rattle.form_page.specs.Invalid.{is_owned_by};
ghost use Rattle.form_page.specs.Views.{is_seen};
ghost use Rattle.form_tree.specs.Tree.{at_key};
ghost use Rattle.form_run.specs.Asking.{asked, asked_by, may_submit_by, own_submission, requested_at, shown_at, submitted_at};

use form_acts::{Act, ActFault, Clicked, click, implicit, is_submitter};
use form_page::Page;
use form_script::Command;
use form_text::{Sequence, Text};
use form_tree::{Key, Node};

/// A form that is submitted.
#[derive(Clone, Copy, Debug, PartialEq, Eq)]
pub struct Submission {
    pub form: Key,
    /// The button that submits it, if one does.
    pub submitter: Option<Key>,
    /// Whether it is validated.
    pub check: bool,
    /// Where an image button was clicked.
    pub at: (u32, u32),
}

/// What a line asks for.
#[derive(Debug, Drop)]
pub enum Asked {
    /// The line is no command: it is empty, or begins with `#`.
    NoCommand,
    /// The line spells no command.
    Syntax,
    /// Nothing is done, for this cause.
    Refused(ActFault),
    /// Nothing is done, since nothing is asked for.
    Nothing,
    /// Something is done to the page.
    Act(Act),
    /// What is seen of the element is shown.
    Show(Key),
    /// The boundaries that multipart bodies may have from now on.
    Boundaries(Sequence<Text>),
    /// A form is submitted.
    Submit(Submission),
}

/// What a command asks for, on the page as it is; it takes no memory.
pub fn asked_of(page: &Page, command: Command) -> Asked
    ensures { result ≡ asked page.now.tree.nodes command }
{
    match command {
        Command::Act(act) => Asked::Act(act),
        Command::Click(key) => asked_by(click(page, key, None)),
        Command::ClickAt(key, x, y) => asked_by(click(page, key, Some((x, y)))),
        Command::Enter(key) => asked_by(implicit(page, key)),
        Command::Submit(key) => submitted_at(page, key, false),
        Command::RequestSubmit(key, None) => submitted_at(page, key, true),
        Command::RequestSubmit(key, Some(button)) => requested_at(page, key, button),
        Command::Show(key) => shown_at(page, key),
        Command::Boundary(boundaries) => Asked::Boundaries(boundaries),
    }
}

// What a click or the enter key asks for.
fn asked_by(clicked: Result<Clicked, ActFault>) -> Asked
    ensures { result ≡ asked_by clicked }
{
    match clicked {
        Ok(Clicked::Nothing) => Asked::Nothing,
        Ok(Clicked::Reset { form }) => Asked::Act(Act::Reset { key: form }),
        Ok(
            Clicked::Submit {
                form,
                submitter,
                at,
            },
        ) => Asked::Submit(Submission {
            form,
            submitter,
            check: true,
            at,
        }),
        Err(fault) => Asked::Refused(fault),
    }
}

fn own_submission(form: Key, check: bool) -> Asked
    ensures { result ≡ own_submission form check }
{
    Asked::Submit(Submission {
        form,
        submitter: None,
        check,
        at: (0, 0),
    })
}

// A form's submission without a button.
fn submitted_at(page: &Page, key: Key, check: bool) -> Asked
    ensures { result ≡ submitted_at page.now.tree.nodes key check }
{
    let Some(node) = page.tree().node(key) else {
        return Asked::Refused(ActFault::NoElement);
    };
    if !node.tag.is_form() {
        return Asked::Refused(ActFault::WrongKind);
    }
    own_submission(key, check)
}

// A form's submission by a button.
fn requested_at(page: &Page, key: Key, button: Key) -> Asked
    ensures { result ≡ requested_at page.now.tree.nodes key button }
{
    let Some(form) = page.tree().node(key) else {
        return Asked::Refused(ActFault::NoElement);
    };
    let Some(node) = page.tree().node(button) else {
        return Asked::Refused(ActFault::NoElement);
    };
    if !may_submit_by(page, form, node) {
        return Asked::Refused(ActFault::WrongKind);
    }
    Asked::Submit(Submission {
        form: form.key,
        submitter: Some(node.key),
        check: true,
        at: (0, 0),
    })
}

// Whether the element is a form, and the other one a submit button that it owns.
fn may_submit_by(page: &Page, form: &Node, button: &Node) -> bool
    ensures { result ≡ may_submit_by page.now.tree.nodes form.now button.now }
{
    form.tag.is_form() && is_submitter(button) && is_owned_by(page, form.key, button)
}

fn shown_at(page: &Page, key: Key) -> Asked
    ensures { result ≡ shown_at page.now.tree.nodes key }
{
    let Some(node) = page.tree().node(key) else {
        return Asked::Refused(ActFault::NoElement);
    };
    if !is_seen(node) {
        return Asked::Refused(ActFault::WrongKind);
    }
    Asked::Show(key)
}

// Whether the element is seen.
fn is_seen(node: &Node) -> bool
    ensures { result ≡ is_seen node.now }
{
    node.tag.is_submittable() || node.tag.is_option()
}

// Whether the form owns the element.
fn is_owned_by(page: &Page, form: Key, node: &Node) -> bool
    ensures { result ≡ is_owned_by page.now.tree.nodes form node.now }
{
    match page.owner(node.key) {
        Some(owner) => form.0 == owner.0,
        None => false,
    }
}
