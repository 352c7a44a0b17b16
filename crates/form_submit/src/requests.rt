// Requests whose bytes are all held.
ghost use Rattle.std.specs.Prelude.{◌≡◌, ◌∷◌, [], IfOk, codes, string_bytes};
ghost use Rattle.form_submit.specs.Outcome.{action_request, body_request, listed_request, plain_kind, urlencoded_kind, with_query};
ghost use Rattle.form_submit.specs.declared.request.Piece.TheVariants.{Bytes};

use crate::request::{Piece, Request};
use crate::route::Way;
use form_encode::{Entry, Pair, pairs, plain, urlencoded};
use form_text::{Sequence, Text};
use std::alloc::{AllocError, Global};
use url::Url;

/// The GET request of a URL.
pub fn action_request(alloc: Global, url: Url) -> Request
    ensures { result ≡ action_request url }
{
    Request {
        post: false,
        url: Text::from_string(String::from(url)),
        kind: None,
        body: Sequence::new(alloc),
    }
}

/// The POST request of a body.
pub fn body_request(url: Url, kind: Text, body: Vec<Piece>) -> Request
    ensures { result ≡ body_request url kind body.items }
{
    Request {
        post: true,
        url: Text::from_string(String::from(url)),
        kind: Some(kind),
        body: Sequence::from_vec(body),
    }
}

/// The request that sends an entry list as a query or as a body of text.
pub fn listed_request(
    alloc: Global,
    url: Url,
    way: Way,
    entries: &[Entry],
) -> Result<Request, AllocError>
    ensures { IfOk result (λ request. request ≡ listed_request url way entries.now) }
{
    let pairs = pairs(alloc, entries)?;
    match way {
        Way::Query => query_request(alloc, url, &pairs),
        Way::Urlencoded => {
            let text = urlencoded(alloc, &pairs)?;
            text_request(alloc, url, urlencoded_kind(), text)
        }
        Way::Plain => {
            let text = plain(alloc, &pairs)?;
            text_request(alloc, url, plain_kind(), text)
        }
    }
}

// The pairs become the query, whatever query there was.
fn query_request(alloc: Global, mut url: Url, pairs: &[Pair]) -> Result<Request, AllocError>
    ensures { IfOk result (λ request. request ≡ action_request (with_query url pairs.now)) }
{
    let query = urlencoded(alloc, pairs)?;
    match url.set_query(Some(query.as_str())) {
        Ok(()) => Ok(action_request(alloc, url)),
        Err(_) => Err(AllocError),
    }
}

#[tactic(auto, unfolding(crate::specs::Outcome::urlencoded_kind))]
fn urlencoded_kind() -> &'static str
    ensures { result.now ≡ urlencoded_kind }
{
    "application/x-www-form-urlencoded"
}

#[tactic(auto, unfolding(crate::specs::Outcome::plain_kind))]
fn plain_kind() -> &'static str
    ensures { result.now ≡ plain_kind }
{
    "text/plain"
}

// The POST request whose body is that text.
fn text_request(alloc: Global, url: Url, kind: &str, text: String) -> Result<Request, AllocError>
    ensures { IfOk result (λ request. request ≡ body_request url kind.now (Bytes (string_bytes text) ∷ [])) }
{
    let kind = Text::from_str(alloc, kind)?;
    let mut body = Vec::with_capacity(alloc, 1)?;
    body.push(bytes_of(text))?;
    Ok(body_request(url, kind, body))
}

/// A piece of that text.
pub fn bytes_of(text: String) -> Piece
    ensures { result ≡ Bytes (string_bytes text) }
{
    Piece::Bytes(Sequence::from_vec(text.into_bytes()))
}
