// The line of a submission that makes no request.
ghost use Rattle.std.specs.Prelude.{◌≡◌, IfOk, string_bytes};
ghost use Rattle.form_run.specs.Replies.{none_line, why_word};

use form_submit::Why;
use std::alloc::{AllocError, Global};

// The word for why a submission makes no request.
fn why_word(why: Why) -> &'static str
    ensures { result.now ≡ why_word why }
{
    match why {
        Why::Dialog => "dialog",
        Why::Action => "action",
        Why::Scheme => "scheme",
        Why::Long => "long",
        Why::Clash => "clash",
    }
}

/// The line of a submission that makes no request.
pub fn none_line(alloc: Global, why: Why) -> Result<String, AllocError>
    ensures { IfOk result (λ line. string_bytes line ≡ none_line why) }
{
    format!(in alloc; "none {}\n", why_word(why))
}
