// The outcomes of the submissions of pages.
ghost use Rattle.std.specs.Prelude.{◌≡◌, ◌<◌};

use crate::pages::{bounds_of, opened};
use crate::shown::{Asked, shown};
use form_judge::Steps;
use form_page::Page;
use form_ports::Blob;
use form_tree::Key;
use std::alloc::{AllocError, Global};
use std::sync::ledger::{Blank, Ledger};

// The keys of the form and of the submitter (0 for none), whether the form is validated, the outcome, and
// the page, with a tab between each two. The boundaries are B and C.
const OUTCOMES: &str = "\
    1 0 y\tstopped 2\t<form action=\"/s\"><input name=\"q\" required></form>\n\
    1 0 y\tstopped 2 4\t<form><input name=\"a\" required><input name=\"b\"><input name=\"c\" required></form>\n\
    2 0 y\tstopped 1 3\t<input form=\"f\" required><form id=\"f\"><input required></form>\n\
    1 0 n\trequest GET https://example.com/s?q=|\t<form action=\"/s\"><input name=\"q\" required></form>\n\
    1 0 y\trequest GET https://example.com/a?q=#f|\t<form novalidate><input name=\"q\" required></form>\n\
    1 3 y\trequest GET https://example.com/a?q=&s=1#f|\t<form><input name=\"q\" required><button name=\"s\" value=\"1\" formnovalidate></button></form>\n\
    1 0 y\trequest GET https://example.com/a?#f|\t<form><input required disabled></form>\n\
    1 0 n\trequest GET https://example.com/a?#f|\t<form></form>\n\
    1 0 n\trequest GET https://example.com/a?a=1#f|\t<form><fieldset disabled><legend><input name=\"a\" value=\"1\"></legend><input name=\"b\" value=\"2\"></fieldset></form>\n\
    1 0 n\trequest GET https://example.com/a?s=b#f|\t<form><select name=\"s\" multiple><option selected disabled>a</option><option selected>b</option></select></form>\n\
    1 2 n\trequest GET https://example.com/m?go.x=4&go.y=5|\t<form action=\"/m\"><input type=\"image\" name=\"go\"></form>\n\
    1 0 n\tnone dialog\t<form method=\"dialog\" action=\"http://[\"></form>\n\
    1 0 n\tnone dialog\t<form method=\"DIALOG\"></form>\n\
    1 0 n\tnone action\t<form action=\"http://[\"></form>\n\
    1 0 n\tnone scheme\t<form action=\"mailto:a@b.c\"></form>\n\
    1 0 n\tnone scheme\t<form action=\"javascript:1\" method=\"post\"></form>\n\
    1 0 n\tnone scheme\t<form action=\"file:///a\"></form>\n\
    1 0 n\trequest GET ftp://h/f|\t<form action=\"ftp://h/f\" method=\"post\"><input name=\"a\"></form>\n\
    1 0 n\trequest GET ftp://h/f|\t<form action=\"ftp://h/f\"><input name=\"a\"></form>\n\
    1 0 n\trequest GET data:text/plain,hi?a=|\t<form action=\"data:text/plain,hi\"><input name=\"a\"></form>\n\
    1 0 n\trequest GET data:text/plain,hi|\t<form action=\"data:text/plain,hi\" method=\"post\"><input name=\"a\"></form>\n\
    1 0 n\trequest GET https://example.com/s?a=#g|\t<form action=\"/s?old#g\"><input name=\"a\"></form>\n\
    1 0 n\trequest GET https://example.com/a?a=|\t<form action=\" \"><input name=\"a\"></form>\n\
    1 0 n\trequest POST https://example.com/s?old#g|type application/x-www-form-urlencoded|data 7|a=b+%26|end|\t<form action=\"/s?old#g\" method=\"post\"><input name=\"a\" value=\"b &amp;\"></form>\n\
    1 0 n\trequest POST https://example.com/a?x#f|type application/x-www-form-urlencoded|end|\t<form method=\"post\" enctype=\"unknown\"></form>\n\
    1 0 n\trequest POST https://example.com/a?x#f|type text/plain|data 13|a=x y^|b=on^||end|\t<form method=\"post\" enctype=\"text/plain\"><input name=\"a\" value=\"x y\"><input type=\"checkbox\" name=\"b\" checked></form>\n\
    1 2 n\trequest GET https://example.com/b?|\t<form action=\"/a\" method=\"post\"><button formaction=\"/b\" formmethod=\"get\"></button></form>\n\
    1 2 n\trequest GET https://example.com/a?#f|\t<form action=\"/b\" method=\"post\"><button formaction=\"\" formmethod=\"\"></button></form>\n\
    1 2 n\trequest POST https://example.com/b|type application/x-www-form-urlencoded|end|\t<form action=\"/b\" enctype=\"text/plain\"><button formmethod=\"post\" formenctype=\"x\"></button></form>\n\
    1 0 n\trequest POST https://example.com/a?x#f|type multipart/form-data; boundary=B|data 166|--B^|Content-Disposition: form-data; name=\"a\"^|^|x^|y^|--B^|Content-Disposition: form-data; name=\"f\"; filename=\"\"^|Content-Type: application/octet-stream^|^|^|--B--^||end|\t<form method=\"post\" enctype=\"multipart/form-data\"><textarea name=\"a\">x&#10;y</textarea><input type=\"file\" name=\"f\"></form>\n\
    1 0 n\trequest POST https://example.com/a?x#f|type multipart/form-data; boundary=C|data 61|--C^|Content-Disposition: form-data; name=\"t\"^|^|--B^|--C--^||end|\t<form method=\"post\" enctype=\"multipart/form-data\"><input name=\"t\" value=\"--B\"></form>\n\
    1 0 n\tnone clash\t<form method=\"post\" enctype=\"multipart/form-data\"><input name=\"t\" value=\"--B--C\"></form>\n\
    1 0 n\trequest GET https://example.com/a?a=1#f|\t<form enctype=\"multipart/form-data\"><input name=\"a\" value=\"1\"></form>\n\
    1 0 n\trequest GET https://example.com/a?a=1#f|\t<form enctype=\"text/plain\"><input name=\"a\" value=\"1\"></form>\n\
    1 0 n\trequest POST http://h/|type text/plain|data 5|a=1^||end|\t<form action=\"http://h/\" method=\"post\" enctype=\"text/plain\"><input name=\"a\" value=\"1\"></form>\n\
    1 0 n\trequest GET data:text/plain,hi|\t<form action=\"data:text/plain,hi\" method=\"post\" enctype=\"multipart/form-data\"><input name=\"a\"></form>\n\
    1 0 n\trequest GET data:text/plain,hi?a=|\t<form action=\"data:text/plain,hi\" enctype=\"text/plain\"><input name=\"a\"></form>\n\
    1 0 n\trequest GET ftp://h/f|\t<form action=\"ftp://h/f\" method=\"post\" enctype=\"multipart/form-data\"><input name=\"a\"></form>\n\
    1 0 n\tnone scheme\t<form action=\"mailto:a@b.c\" method=\"post\" enctype=\"text/plain\"></form>\n\
    1 0 n\tnone scheme\t<form action=\"file:///a\" method=\"post\" enctype=\"multipart/form-data\"></form>\n\
    1 2 n\tnone dialog\t<form method=\"post\"><button formmethod=\"dialog\"></button></form>\n\
    1 2 n\trequest GET https://example.com/a?#f|\t<form method=\"post\"><button formmethod=\"x\"></button></form>\n\
    1 2 n\trequest POST https://example.com/a?x#f|type application/x-www-form-urlencoded|end|\t<form method=\"post\" enctype=\"text/plain\"><button formenctype=\"\"></button></form>\n\
    1 2 n\trequest POST https://example.com/a?x#f|type text/plain|end|\t<form method=\"post\"><button formenctype=\"TEXT/PLAIN\"></button></form>\n\
    1 0 n\trequest GET https://example.com/a?a%22b=%C3%A9#f|\t<form><input name=\"a&quot;b\" value=\"é\"></form>\n\
    1 0 n\trequest GET https://example.com/a?a%0D%0Ab=x%0D%0Ay#f|\t<form><textarea name=\"a&#10;b\">x&#10;y</textarea></form>\n\
    1 0 n\trequest POST https://example.com/a?x#f|type text/plain|data 6|a=é^||end|\t<form method=\"post\" enctype=\"text/plain\"><input name=\"a\" value=\"é\"></form>\n\
    1 0 n\trequest POST https://example.com/a?x#f|type multipart/form-data; boundary=B|data 64|--B^|Content-Disposition: form-data; name=\"a%22b\"^|^|é^|--B--^||end|\t<form method=\"post\" enctype=\"multipart/form-data\"><input name=\"a&quot;b\" value=\"é\"></form>\n\
    1 0 n\trequest POST https://example.com/a?x#f|type multipart/form-data; boundary=B|data 69|--B^|Content-Disposition: form-data; name=\"a%0D%0Ab\"^|^|x^|y^|--B--^||end|\t<form method=\"post\" enctype=\"multipart/form-data\"><textarea name=\"a&#10;b\">x&#10;y</textarea></form>\n\
    ";

// The key of a number; of another text it is that of no element.
fn key_of(number: &str) -> Key {
    match number.parse::<u32>() {
        Ok(number) => Key(number),
        Err(_) => Key(0),
    }
}

fn asked(keys: &str) -> Option<Asked> {
    let (form, rest) = keys.split_once(' ')?;
    let (submitter, check) = rest.split_once(' ')?;
    Some(Asked {
        form: key_of(form),
        submitter: match submitter {
            "0" => None,
            number => Some(key_of(number)),
        },
        check: check == "y",
    })
}

fn outcome(alloc: Global, page: &Page, asked: Asked) -> Result<String, AllocError> {
    let bounds = bounds_of(alloc, "B C")?;
    let mut shelf: Vec<Option<Box<dyn Blob>>> = Vec::new(alloc);
    shown(alloc, page, asked, &bounds, &mut shelf, true)
}

// Whether a row holds.
fn holds<L: Ledger>(alloc: Global, row: &str, steps: &mut Steps<L>) -> bool {
    let Some((keys, row)) = row.split_once('\t') else {
        return false;
    };
    let Some((want, text)) = row.split_once('\t') else {
        return false;
    };
    let (Some(asked), Some(page)) = (asked(keys), opened(alloc, text, steps)) else {
        return false;
    };
    match outcome(alloc, &page, asked) {
        Ok(outcome) => outcome.as_str() == want,
        Err(_) => false,
    }
}

// The number of the first row that does not hold, from 1; 0 where all hold.
fn first_wrong<L: Ledger>(blank: Blank, alloc: Global) -> u32
    requires name { blank.name ≡ L.name }
    requires parts { blank.parts ≡ L.parts }
    requires some { 0 < blank.parts }
{
    let mut steps = Steps::<L>::new(blank);
    let mut number = 0u32;
    for row in OUTCOMES.lines() {
        number = number.saturating_add(1);
        if !holds(alloc, row, &mut steps) {
            return number;
        }
    }
    0
}

#[test]
fn outcomes_of_pages(rt: HostRuntime) {
    let wrong = first_wrong::<std::marker::Brand>(Blank::new(1), rt.alloc());
    assert_eq!(rt; wrong, 0);
}
