// Where a submission leads before its entry list is made.
ghost use Rattle.std.specs.Prelude.{◌≡◌, IfOk};
ghost use Rattle.url.specs.Parser.{Gives};
ghost use Rattle.form_submit.specs.Route.{deed_of, for_post, parsed_action, route_by_action, route_by_method, route_of, route_of_body, route_of_url, stopped_by};

use crate::attributes::{Enctype, Method, action_of, enctype_of, method_of};
use crate::invalid::stopping_keys;
use form_page::Page;
use form_text::Sequence;
use form_tree::{Key, Tree};
use std::alloc::{AllocError, Global};
use url::{ParseError, ParseResult, Url};

/// What is done with the parsed action (HTML, "Form submission algorithm", the table of schemes).
#[derive(Clone, Copy, Debug, PartialEq, Eq)]
pub enum Deed {
    /// "Mutate action URL": the pairs of the entry list become its query.
    Query,
    /// "Submit as entity body".
    Body,
    /// "Get action URL": it is asked for as it is.
    AsItIs,
    /// No request is made to such a scheme.
    Nothing,
}

/// How an entry list without the bytes of files is sent.
#[derive(Clone, Copy, Debug, PartialEq, Eq)]
pub enum Way {
    /// As the query of the URL.
    Query,
    /// As a form-urlencoded body.
    Urlencoded,
    /// As a body of plain text.
    Plain,
}

/// A submission that reads no file.
#[derive(Drop)]
pub enum Direct {
    /// It is stopped: these controls are invalid.
    Stopped(Sequence<Key>),
    /// The method is `dialog`.
    Dialog,
    /// The action does not parse.
    Action,
    /// No request is made to the scheme of the URL.
    Scheme,
    /// The URL is asked for as it is.
    AsItIs(Url),
    /// The entry list is sent to the URL in that way.
    Listed(Url, Way),
}

/// Where a submission leads.
#[derive(Drop)]
pub enum Route {
    Direct(Direct),
    /// To a multipart body for the URL, which is the one that files are read for.
    Multipart(Url),
}

// That deed for POST; every other method sends the pairs as the query.
fn for_post(method: Method, deed: Deed) -> Deed
    ensures { result ≡ for_post method deed }
{
    match method {
        Method::Post => deed,
        Method::Get | Method::Dialog => Deed::Query,
    }
}

// What is done with a URL of that scheme.
fn deed_of(scheme: &str, method: Method) -> Deed
    ensures { result ≡ deed_of scheme.now method }
{
    match scheme {
        "http" | "https" => for_post(method, Deed::Body),
        "data" => for_post(method, Deed::AsItIs),
        "ftp" => Deed::AsItIs,
        _ => Deed::Nothing,
    }
}

// A body of that encoding type.
fn route_of_body(url: Url, enctype: Enctype) -> Route
    ensures { result ≡ route_of_body url enctype }
{
    match enctype {
        Enctype::Urlencoded => Route::Direct(Direct::Listed(url, Way::Urlencoded)),
        Enctype::Multipart => Route::Multipart(url),
        Enctype::Plain => Route::Direct(Direct::Listed(url, Way::Plain)),
    }
}

fn route_of_url(url: Url, method: Method, enctype: Enctype) -> Route
    ensures { result ≡ route_of_url url method enctype }
{
    match deed_of(url.scheme(), method) {
        Deed::Query => Route::Direct(Direct::Listed(url, Way::Query)),
        Deed::Body => route_of_body(url, enctype),
        Deed::AsItIs => Route::Direct(Direct::AsItIs(url)),
        Deed::Nothing => Route::Direct(Direct::Scheme),
    }
}

// The parsed action.
fn parse_action(base: &Url, action: &str) -> ParseResult<Url>
    ensures { Gives result (parsed_action base.now action.now) }
{
    if action.is_empty() {
        match base.clone() {
            Ok(url) => Ok(url),
            Err(_) => Err(ParseError::OutOfMemory),
        }
    } else {
        base.join(action)
    }
}

fn route_by_action(
    base: &Url,
    action: &str,
    method: Method,
    enctype: Enctype,
) -> Result<Route, AllocError>
    ensures { IfOk result (λ route. route ≡ route_by_action (parsed_action base.now action.now) method enctype) }
{
    match parse_action(base, action) {
        Ok(url) => Ok(route_of_url(url, method, enctype)),
        Err(ParseError::OutOfMemory | ParseError::Overflow) => Err(AllocError),
        Err(_) => Ok(Route::Direct(Direct::Action)),
    }
}

fn route_by_method(
    tree: &Tree,
    base: &Url,
    form: Key,
    submitter: Option<Key>,
    method: Method,
) -> Result<Route, AllocError>
    ensures { IfOk result (λ route. route ≡ route_by_method tree.now.nodes base.now form submitter method) }
{
    match method {
        Method::Dialog => Ok(Route::Direct(Direct::Dialog)),
        Method::Get | Method::Post => route_by_action(
            base,
            action_of(tree, form, submitter),
            method,
            enctype_of(tree, form, submitter),
        ),
    }
}

/// Where a submission leads: it is stopped by invalid controls, there is no request, or it goes to the
/// action's URL.
pub fn route_of(
    alloc: Global,
    page: &Page,
    base: &Url,
    form: Key,
    submitter: Option<Key>,
    check: bool,
) -> Result<Route, AllocError>
    ensures { IfOk result (λ route. route ≡ route_of page.now.tree.nodes base.now form submitter check) }
{
    let keys = stopping_keys(alloc, page, form, submitter, check)?;
    if !keys.is_empty() {
        return Ok(Route::Direct(Direct::Stopped(Sequence::from_vec(keys))));
    }
    let tree = page.tree();
    route_by_method(
        tree,
        base,
        form,
        submitter,
        method_of(tree, form, submitter),
    )
}
