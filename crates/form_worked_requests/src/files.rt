// Whether the files that a page names stand on a shelf, found as the program runs.
ghost use Rattle.std.specs.Prelude.{◌≡◌, All, true};
ghost use Rattle.form_ports.specs.Shelf.{contents_of, IsThere};
ghost use Rattle.form_submit.specs.Outcome.{HasFiles};

use form_page::Page;
use form_ports::Blob;
use form_tree::Node;

fn is_there(shelf: &[Option<Box<dyn Blob>>], number: u32) -> bool
    ensures { result ≡ true → IsThere (contents_of (λ b. content b) shelf.now) number }
{
    if number == 0 {
        return false;
    }
    match shelf.get(number as usize - 1) {
        Some(file) => file.is_some(),
        None => false,
    }
}

fn has_each(shelf: &[Option<Box<dyn Blob>>], numbers: &[u32]) -> bool
    ensures { result ≡ true → All (λ number. IsThere (contents_of (λ b. content b) shelf.now) number) numbers.now }
{
    'searching: for number in numbers {
        if !is_there(shelf, *number) {
            return false;
        }
    }
    true
}

// Whether each file that one of the elements names stands on the shelf.
fn has_all(shelf: &[Option<Box<dyn Blob>>], nodes: &[Node]) -> bool
    ensures { result ≡ true → All (λ n. All (λ number. IsThere (contents_of (λ b. content b) shelf.now) number)
        n.state.files) nodes.now }
{
    'searching: for node in nodes {
        if !has_each(shelf, node.state.files.as_slice()) {
            return false;
        }
    }
    true
}

// Whether each file that an element of the page names stands on the shelf: what `submit` asks for.
pub fn has_files(shelf: &[Option<Box<dyn Blob>>], page: &Page) -> bool
    ensures { result ≡ true → HasFiles (contents_of (λ b. content b) shelf.now) page.now.tree.nodes }
{
    has_all(shelf, page.tree().nodes())
}
