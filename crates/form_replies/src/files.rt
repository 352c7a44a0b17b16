// Files that are withdrawn.
ghost use Rattle.std.specs.Prelude.{◌≡◌, IfSome};
ghost use Rattle.form_ports.specs.Shelf.{IsThere, contents_of};
ghost use Rattle.form_replies.specs.Withdrawn.{without_all, withdrawn_by};

use form_changes::Act;
use form_ports::Blob;

/// The number of the file that an act withdraws.
pub fn withdrawn_by(act: &Act) -> Option<u32>
    ensures { result ≡ withdrawn_by act.now }
{
    match act {
        Act::Withdraw { file } => Some(*file),
        _ => None,
    }
}

/// Takes the file of that number from the shelf; its place stays.
pub fn withdraw(shelf: &mut Vec<Option<Box<dyn Blob>>>, number: Option<u32>)
    requires { IfSome number (IsThere (contents_of (λ b. content b) shelf.old.items)) }
    ensures { shelf.new.items ≡ without_all shelf.old.items number }
{
    if let Some(number) = number {
        shelf[number as usize - 1] = None;
    }
}
