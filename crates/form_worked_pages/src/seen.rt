// What is seen of the elements of a page as it opens.
ghost use Rattle.std.specs.Prelude.{◌≡◌, ◌<◌};

use crate::markup::meant;
use crate::views::{key_of, opened, shown};
use form_judge::Steps;
use form_tree::Key;
use std::alloc::Global;
use std::sync::ledger::{Blank, Ledger};

// An element's key, what is seen of it, and the page, with a tab between each two; the pictures of TAB
// and LF stand for these.
const SEEN: &str = "\
    2\t|k|m\t<form action=\"/s\"><input name=\"q\" required></form>\n\
    1\tnone\t<form></form>\n\
    1\ta|k|\t<input value=\"a\">\n\
    1\thttp://a/|k|\t<input type=\"url\" value=\" http://a/ \">\n\
    1\ta|k|t\t<input type=\"url\" value=\"a\">\n\
    1\ta||\t<input type=\"hidden\" value=\"a\">\n\
    1\t||\t<input type=\"hidden\">\n\
    1\ton|k|\t<input type=\"checkbox\">\n\
    1\ta|ck|\t<input type=\"checkbox\" value=\"a\" checked>\n\
    1\ton|k|m\t<input type=\"checkbox\" required>\n\
    1\ton|ck|\t<input type=\"radio\" checked>\n\
    1\t|k|\t<input type=\"file\" value=\"a\">\n\
    1\t|k|m\t<input type=\"file\" required>\n\
    1\t|k|\t<input type=\"submit\">\n\
    1\ta||\t<input type=\"reset\" value=\"a\">\n\
    1\t||\t<input type=\"button\">\n\
    1\t|k|\t<input checked>\n\
    1\t2020-W53|k|\t<input type=\"week\" value=\"2020-W53\">\n\
    1\t|k|\t<input type=\"week\" value=\"2021-W53\">\n\
    1\t2024-05-06T07:08|k|\t<input type=\"datetime-local\" value=\"2024-05-06 07:08:00.000\">\n\
    1\t|k|\t<input type=\"number\" value=\"1.\">\n\
    1\t.5|k|\t<input type=\"number\" value=\".5\">\n\
    1\t6|k|\t<input type=\"range\" min=\"0\" max=\"10\" step=\"2\">\n\
    1\t.5|k|x\t<input type=\"number\" min=\"0\" value=\".5\">\n\
    1\t#abcdef|k|\t<input type=\"color\" value=\"#ABCDEF\">\n\
    1\t12:00|k|uo\t<input type=\"time\" min=\"22:00\" max=\"06:00\" value=\"12:00\">\n\
    1\t1234|k|p\t<input pattern=\"[0-9]{3}\" value=\"1234\">\n\
    1\t|k|\t<input pattern=\"[0-9]{3}\">\n\
    1\t||\t<input readonly required>\n\
    1\ton|k|m\t<input type=\"checkbox\" readonly required>\n\
    1\t||\t<input disabled required>\n\
    3\t||m\t<datalist><p><input required></p></datalist>\n\
    1\t|k|m\t<textarea required></textarea>\n\
    1\ta|k|\t<button value=\"a\"></button>\n\
    1\t||\t<button type=\"reset\"></button>\n\
    1\ta|k|\t<select><option>a</option><option>b</option></select>\n\
    2\ta|s|\t<select><option>a</option><option>b</option></select>\n\
    1\tb c|k|\t<select><option disabled>a</option><option> b  c </option></select>\n\
    1\t|k|\t<select size=\"2\"><option>a</option></select>\n\
    2\ta||\t<select><option selected>a</option><option selected>b</option></select>\n\
    1\ta|k|\t<select multiple><option selected>a</option><option selected>b</option></select>\n\
    1\t|k|m\t<select required><option value=\"\">a</option><option>b</option></select>\n\
    3\t|k|\t<fieldset disabled><legend><input></legend><input></fieldset>\n\
    4\t||\t<fieldset disabled><legend><input></legend><input></fieldset>\n\
    2\ton|k|m\t<form><input type=\"radio\" name=\"a\" required></form><form><input type=\"radio\" name=\"a\" checked></form>\n\
    4\ton|ck|\t<form><input type=\"radio\" name=\"a\" required></form><form><input type=\"radio\" name=\"a\" checked></form>\n\
    1\ton|k|\t<input type=\"radio\" name=\"a\" required><input type=\"radio\" name=\"a\" checked>\n\
    1\ton|k|m\t<input type=\"radio\" name=\"a\" required><input type=\"radio\" name=\"A\" checked>\n\
    1\ton|k|m\t<input type=\"radio\" name=\"\" required><input type=\"radio\" name=\"\" checked>\n\
    1\ton|k|m\t<input type=\"radio\" required><input type=\"radio\" checked>\n\
    1\ton|k|m\t<input type=\"radio\" name=\"a\" required><input type=\"checkbox\" name=\"a\" checked>\n\
    1\ton|k|\t<input type=\"radio\" name=\"a\" checked><input type=\"radio\" name=\"a\" checked>\n\
    2\ton|ck|\t<input type=\"radio\" name=\"a\" checked><input type=\"radio\" name=\"a\" checked>\n\
    1\ta␊b|k|\t<textarea>a␊b</textarea>\n\
    ";

fn is_seen<L: Ledger>(
    alloc: Global,
    key: Key,
    want: &str,
    text: &str,
    steps: &mut Steps<L>,
) -> bool {
    let Some(page) = opened(alloc, text, steps) else {
        return false;
    };
    match shown(alloc, &page, key) {
        Ok(seen) => seen.as_str() == want,
        Err(_) => false,
    }
}

// Whether a row holds.
fn holds<L: Ledger>(alloc: Global, row: &str, steps: &mut Steps<L>) -> bool {
    let Some((key, row)) = row.split_once('\t') else {
        return false;
    };
    let Some((want, text)) = row.split_once('\t') else {
        return false;
    };
    match (meant(alloc, want), meant(alloc, text)) {
        (Ok(want), Ok(text)) => is_seen(alloc, key_of(key), &want, &text, steps),
        _ => false,
    }
}

// The number of the first row that does not hold, from 1; 0 where all hold.
fn first_wrong<L: Ledger>(blank: Blank, alloc: Global) -> u32
    requires name { blank.name ≡ L.name }
    requires parts { blank.parts ≡ L.parts }
    requires some { 0 < blank.parts }
{
    let mut steps = Steps::<L>::new(blank);
    let mut number = 0u32;
    for row in SEEN.lines() {
        number = number.saturating_add(1);
        if !holds(alloc, row, &mut steps) {
            return number;
        }
    }
    0
}

#[test]
fn what_is_seen_of_pages(rt: HostRuntime) {
    let wrong = first_wrong::<std::marker::Brand>(Blank::new(1), rt.alloc());
    assert_eq!(rt; wrong, 0);
}
