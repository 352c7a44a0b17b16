// Each attribute that does further added, changed to another text, set to the same text, taken away,
// and taken away where it is absent.
ghost use Rattle.std.specs.Prelude.{◌≡◌, ◌<◌};

use crate::playing::wrong_row;
use form_judge::Steps;
use std::alloc::Global;
use std::sync::ledger::{Blank, Ledger};

const ATTRIBUTES: &str = "\
    attr @1 value \"a\"\t1 a|k|\t<input>\n\
    attr @1 value \"b\"\t1 b|k|\t<input value=\"a\">\n\
    attr @1 value \"a\"\t\t<input value=\"a\">\n\
    unattr @1 value\t1 |k|\t<input value=\"a\">\n\
    unattr @1 value\t\t<input>\n\
    attr @1 value \"a\"\t1 a||\t<input type=\"hidden\">\n\
    attr @1 value \"b\"\t1 b||\t<input type=\"hidden\" value=\"a\">\n\
    attr @1 value \"a\"\t\t<input type=\"hidden\" value=\"a\">\n\
    unattr @1 value\t1 ||\t<input type=\"hidden\" value=\"a\">\n\
    unattr @1 value\t\t<input type=\"hidden\">\n\
    attr @1 value \"a\"\t1 a|k|\t<input type=\"checkbox\">\n\
    attr @1 value \"b\"\t1 b|k|\t<input type=\"checkbox\" value=\"a\">\n\
    attr @1 value \"a\"\t\t<input type=\"checkbox\" value=\"a\">\n\
    unattr @1 value\t1 on|k|\t<input type=\"checkbox\" value=\"a\">\n\
    unattr @1 value\t\t<input type=\"checkbox\">\n\
    attr @1 value \"3.3\"\t1 3.3|k|\t<input type=\"range\">\n\
    attr @1 value \"4.4\"\t1 4.4|k|\t<input type=\"range\" value=\"3.3\">\n\
    attr @1 value \"3.3\"\t\t<input type=\"range\" value=\"3.3\">\n\
    unattr @1 value\t1 50|k|\t<input type=\"range\" value=\"3.3\">\n\
    unattr @1 value\t\t<input type=\"range\">\n\
    attr @2 value \"b\"\t1 b|k| 2 b|s|\t<select><option>a</option></select>\n\
    attr @2 value \"c\"\t1 c|k| 2 c|s|\t<select><option value=\"b\">a</option></select>\n\
    attr @2 value \"b\"\t\t<select><option value=\"b\">a</option></select>\n\
    unattr @2 value\t1 a|k| 2 a|s|\t<select><option value=\"b\">a</option></select>\n\
    unattr @2 value\t\t<select><option>a</option></select>\n\
    attr @1 value \"a\"\t1 a|k|\t<button></button>\n\
    attr @1 value \"b\"\t1 b|k|\t<button value=\"a\"></button>\n\
    attr @1 value \"a\"\t\t<button value=\"a\"></button>\n\
    unattr @1 value\t1 |k|\t<button value=\"a\"></button>\n\
    unattr @1 value\t\t<button></button>\n\
    set @1 \"x\";attr @1 value \"b\"\t1 x|k|;\t<input value=\"a\">\n\
    user @1 \"x\";unattr @1 value\t1 x|k|;\t<input value=\"a\">\n\
    attr @1 value \"1.\"\t\t<input type=\"number\">\n\
    set @1 \"0\";attr @1 value \"3.3\"\t1 0|k|;1 0.3|k|\t<input type=\"range\">\n\
    attr @1 value \"a\"\t\t<input type=\"file\">\n\
    attr @1 value \"a\"\t\t<textarea>b</textarea>\n\
    attr @1 value \"a\"\t\t<p></p>\n\
    attr @1 min \"60\"\t1 60|k|\t<input type=\"range\">\n\
    attr @1 min \"90\"\t1 90|k|\t<input type=\"range\" min=\"60\">\n\
    attr @1 min \"60\"\t\t<input type=\"range\" min=\"60\">\n\
    unattr @1 min\t\t<input type=\"range\" min=\"60\">\n\
    unattr @1 min\t\t<input type=\"range\">\n\
    attr @1 max \"40\"\t1 40|k|\t<input type=\"range\">\n\
    attr @1 max \"10\"\t1 10|k|\t<input type=\"range\" max=\"40\">\n\
    attr @1 max \"40\"\t\t<input type=\"range\" max=\"40\">\n\
    unattr @1 max\t\t<input type=\"range\" max=\"40\">\n\
    unattr @1 max\t\t<input type=\"range\">\n\
    attr @1 step \"2\"\t1 6|k|\t<input type=\"range\" min=\"0\" value=\"5\">\n\
    attr @1 step \"4\"\t1 8|k|\t<input type=\"range\" min=\"0\" value=\"6\" step=\"2\">\n\
    attr @1 step \"2\"\t\t<input type=\"range\" min=\"0\" value=\"6\" step=\"2\">\n\
    unattr @1 step\t\t<input type=\"range\" min=\"0\" value=\"6\" step=\"2\">\n\
    unattr @1 step\t\t<input type=\"range\" min=\"0\" value=\"5\">\n\
    unattr @1 step\t1 6|k|\t<input type=\"range\" min=\"0\" step=\"any\" value=\"5.5\">\n\
    attr @1 min \"6\"\t1 5|k|u\t<input type=\"number\" value=\"5\">\n\
    attr @1 min \"5\"\t1 5|k|\t<input type=\"number\" value=\"5\" min=\"6\">\n\
    attr @1 min \"6\"\t\t<input type=\"number\" value=\"5\" min=\"6\">\n\
    unattr @1 min\t1 5|k|\t<input type=\"number\" value=\"5\" min=\"6\">\n\
    unattr @1 min\t\t<input type=\"number\" value=\"5\">\n\
    attr @1 max \"4\"\t1 5|k|o\t<input type=\"number\" value=\"5\">\n\
    attr @1 max \"5\"\t1 5|k|\t<input type=\"number\" value=\"5\" max=\"4\">\n\
    attr @1 max \"4\"\t\t<input type=\"number\" value=\"5\" max=\"4\">\n\
    unattr @1 max\t1 5|k|\t<input type=\"number\" value=\"5\" max=\"4\">\n\
    unattr @1 max\t\t<input type=\"number\" value=\"5\">\n\
    attr @1 step \"2\"\t1 5|k|x\t<input type=\"number\" min=\"0\" value=\"5\">\n\
    attr @1 step \"5\"\t1 5|k|\t<input type=\"number\" min=\"0\" value=\"5\" step=\"2\">\n\
    attr @1 step \"2\"\t\t<input type=\"number\" min=\"0\" value=\"5\" step=\"2\">\n\
    unattr @1 step\t1 5|k|\t<input type=\"number\" min=\"0\" value=\"5\" step=\"2\">\n\
    unattr @1 step\t\t<input type=\"number\" min=\"0\" value=\"5\">\n\
    attr @1 checked \"a\"\t1 on|ck|\t<input type=\"checkbox\">\n\
    attr @1 checked \"b\"\t\t<input type=\"checkbox\" checked=\"a\">\n\
    attr @1 checked \"a\"\t\t<input type=\"checkbox\" checked=\"a\">\n\
    unattr @1 checked\t1 on|k|\t<input type=\"checkbox\" checked=\"a\">\n\
    unattr @1 checked\t\t<input type=\"checkbox\">\n\
    attr @1 checked \"a\"\t1 on|ck|\t<input type=\"radio\">\n\
    attr @1 checked \"b\"\t\t<input type=\"radio\" checked=\"a\">\n\
    attr @1 checked \"a\"\t\t<input type=\"radio\" checked=\"a\">\n\
    unattr @1 checked\t1 on|k|\t<input type=\"radio\" checked=\"a\">\n\
    unattr @1 checked\t\t<input type=\"radio\">\n\
    attr @2 checked \"\"\t1 on|k| 2 on|ck|\t<input type=\"radio\" name=\"g\" checked><input type=\"radio\" name=\"g\">\n\
    uncheck @1;unattr @1 checked;attr @1 checked \"\"\t1 on|k|;;\t<input type=\"checkbox\" checked>\n\
    attr @1 checked \"\";attr @1 type \"checkbox\"\t;1 on|ck|\t<input>\n\
    attr @1 checked \"\"\t\t<p></p>\n\
    attr @2 name \"a\"\t1 on|k|\t<input type=\"radio\" name=\"a\" checked><input type=\"radio\" checked>\n\
    attr @2 name \"a\"\t1 on|k|\t<input type=\"radio\" name=\"a\" checked><input type=\"radio\" name=\"b\" checked>\n\
    attr @1 name \"a\"\t\t<input type=\"radio\" name=\"a\" checked><input type=\"radio\" name=\"b\" checked>\n\
    unattr @1 name\t2 on|k|m\t<input type=\"radio\" name=\"a\" checked><input type=\"radio\" name=\"a\" required>\n\
    unattr @2 name\t\t<input type=\"radio\" name=\"a\" checked><input type=\"radio\">\n\
    attr @2 name \"a\"\t\t<input type=\"radio\" name=\"a\" checked><input type=\"radio\" name=\"b\">\n\
    attr @2 name \"a\"\t\t<input type=\"radio\" name=\"a\" checked><input type=\"checkbox\" checked>\n\
    attr @1 id \"c\";show @4\t2 on|k|;on|ck|\t<form id=\"a\"><input type=\"radio\" name=\"g\" checked></form><form id=\"b\"></form><input type=\"radio\" name=\"g\" form=\"c\" checked>\n\
    attr @1 id \"b\";show @2;show @3;show @4\t;on|ck|;on|ck|;on|k|\t<form id=\"a\"></form><input type=\"radio\" name=\"g\" form=\"a\" checked><input type=\"radio\" name=\"g\" form=\"b\" checked><input type=\"radio\" name=\"g\" form=\"b\">\n\
    unattr @1 id\t3 on|k|\t<form id=\"a\"></form><input type=\"radio\" name=\"g\" form=\"a\" checked><input type=\"radio\" name=\"g\" required>\n\
    attr @1 id \"a\"\t\t<form id=\"a\"></form><input type=\"radio\" name=\"g\" form=\"a\" checked><input type=\"radio\" name=\"g\" checked>\n\
    unattr @1 id\t\t<form></form><input type=\"radio\" name=\"g\" form=\"a\" checked>\n\
    attr @1 id \"a\"\t2 on|k|\t<form><input type=\"radio\" name=\"g\" checked></form><form id=\"a\"></form><input type=\"radio\" name=\"g\" form=\"a\" checked>\n\
    attr @3 form \"a\"\t2 on|k|\t<form id=\"a\"></form><input type=\"radio\" name=\"g\" form=\"a\" checked><input type=\"radio\" name=\"g\" checked>\n\
    unattr @2 form\t3 on|k|\t<form id=\"a\"></form><input type=\"radio\" name=\"g\" form=\"a\" checked><input type=\"radio\" name=\"g\" checked>\n\
    attr @2 form \"b\"\t3 on|k|\t<form id=\"a\"></form><input type=\"radio\" name=\"g\" form=\"a\" checked><input type=\"radio\" name=\"g\" checked>\n\
    attr @2 form \"a\"\t\t<form id=\"a\"></form><input type=\"radio\" name=\"g\" form=\"a\" checked><input type=\"radio\" name=\"g\" checked>\n\
    unattr @3 form\t\t<form id=\"a\"></form><input type=\"radio\" name=\"g\" form=\"a\" checked><input type=\"radio\" name=\"g\" checked>\n\
    attr @3 selected \"a\"\t1 b|k| 2 a|| 3 b|s|\t<select><option>a</option><option>b</option></select>\n\
    attr @3 selected \"b\"\t\t<select><option>a</option><option selected=\"a\">b</option></select>\n\
    attr @3 selected \"a\"\t\t<select><option>a</option><option selected=\"a\">b</option></select>\n\
    unattr @3 selected\t1 a|k| 2 a|s| 3 b||\t<select><option>a</option><option selected=\"a\">b</option></select>\n\
    unattr @3 selected\t\t<select><option>a</option><option>b</option></select>\n\
    attr @2 selected \"a\"\t1 a|k| 2 a|s|\t<select multiple><option>a</option></select>\n\
    attr @2 selected \"b\"\t\t<select multiple><option selected=\"a\">a</option></select>\n\
    attr @2 selected \"a\"\t\t<select multiple><option selected=\"a\">a</option></select>\n\
    unattr @2 selected\t1 |k| 2 a||\t<select multiple><option selected=\"a\">a</option></select>\n\
    unattr @2 selected\t\t<select multiple><option>a</option></select>\n\
    pick @2;attr @2 selected \"\";unattr @2 selected\t1 a|k| 2 a|s|;;\t<select multiple><option>a</option></select>\n\
    attr @1 selected \"\"\t\t<p></p>\n\
    attr @1 multiple \"\";pick @3;unattr @1 multiple\t;3 b|s|;1 b|k| 2 a||\t<select><option>a</option><option>b</option></select>\n\
    attr @1 multiple \"a\"\t\t<select multiple><option selected>a</option><option selected>b</option></select>\n\
    unattr @1 multiple\t1 b|k| 2 a||\t<select multiple><option selected>a</option><option selected>b</option></select>\n\
    unattr @1 multiple\t1 a|k| 2 a|s|\t<select multiple><option>a</option></select>\n\
    unattr @1 multiple\t\t<select><option>a</option><option>b</option></select>\n\
    attr @1 multiple \"\"\t\t<input type=\"file\">\n\
    attr @1 size \"2\"\t\t<select><option>a</option></select>\n\
    attr @1 size \"1\"\t1 a|k| 2 a|s|\t<select size=\"2\"><option>a</option></select>\n\
    attr @1 size \"2\"\t\t<select size=\"2\"><option>a</option></select>\n\
    unattr @1 size\t1 a|k| 2 a|s|\t<select size=\"2\"><option>a</option></select>\n\
    unattr @1 size\t\t<select><option>a</option></select>\n\
    attr @1 required \"\"\t1 |k|m\t<input>\n\
    attr @1 title \"t\"\t\t<input>\n\
    attr @9 title \"t\"\tno-element\t<input>\n\
    unattr @9 title\tno-element\t<input>\n\
    attr @1 type \"eMail\"\temail\t<input>\n\
    attr @1 type \"email\"\t\t<button></button>\n\
    attr @1 type \"email\"\t\t<p></p>\n\
    attr @1 disabled \"\";user @1 \"x\"\t1 ||;immutable\t<input>\n\
    ";

// The number of the first row that does not hold, from 1; 0 where all hold.
fn first_wrong<L: Ledger>(blank: Blank, alloc: Global) -> u32
    requires name { blank.name ≡ L.name }
    requires parts { blank.parts ≡ L.parts }
    requires some { 0 < blank.parts }
{
    let mut steps = Steps::<L>::new(blank);
    wrong_row(alloc, ATTRIBUTES, &mut steps)
}

#[test]
fn attributes_of_every_role(rt: HostRuntime) {
    let wrong = first_wrong::<std::marker::Brand>(Blank::new(1), rt.alloc());
    assert_eq!(rt; wrong, 0);
}
