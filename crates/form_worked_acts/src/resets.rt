// Resets of each kind of control.
ghost use Rattle.std.specs.Prelude.{◌≡◌, ◌<◌};

use crate::playing::wrong_row;
use form_judge::Steps;
use std::alloc::Global;
use std::sync::ledger::{Blank, Ledger};

const RESETS: &str = "\
    reset @1\t\t<form></form>\n\
    reset @9\tno-element\t<form></form>\n\
    reset @1\twrong-kind\t<input>\n\
    reset @1\twrong-kind\t<textarea></textarea>\n\
    reset @1\twrong-kind\t<select></select>\n\
    reset @1\twrong-kind\t<button></button>\n\
    reset @1\twrong-kind\t<fieldset></fieldset>\n\
    reset @1\twrong-kind\t<p></p>\n\
    reset @2\twrong-kind\t<select><option>a</option></select>\n\
    user @2 \"x\";reset @1;reset @1\t2 x|k|;2 a|k|;\t<form><input value=\"a\"></form>\n\
    set @2 \"x\";reset @1;attr @2 value \"b\"\t2 x|k|;2 a|k|;2 b|k|\t<form><input value=\"a\"></form>\n\
    user @2 \"x\";reset @1\t2 |k|b;2 7|k|\t<form><input type=\"number\" value=\"7\"></form>\n\
    user @2 \"x\";reset @1\t2 |k|b;2 |k|\t<form><input type=\"number\"></form>\n\
    set @2 \"7\";reset @1\t2 7|k|;2 50|k|\t<form><input type=\"range\"></form>\n\
    set @2 \"#ffffff\";reset @1\t2 #ffffff|k|;2 #000000|k|\t<form><input type=\"color\"></form>\n\
    set @2 \"x\";reset @1\t2 x||;\t<form><input type=\"hidden\" value=\"a\"></form>\n\
    set @2 \"x\";reset @1\t2 x||;2 a||\t<form><input value=\"a\" disabled></form>\n\
    check @2;reset @1;attr @2 checked \"\"\t2 on|ck|;2 on|k|;2 on|ck|\t<form><input type=\"checkbox\"></form>\n\
    uncheck @2;reset @1\t2 on|k|;2 on|ck|\t<form><input type=\"checkbox\" checked></form>\n\
    check @3;reset @1\t2 on|k| 3 on|ck|;2 on|ck| 3 on|k|\t<form><input type=\"radio\" name=\"g\" checked><input type=\"radio\" name=\"g\"></form>\n\
    check @2;reset @1\t2 on|ck| 3 on|k|;2 on|k| 3 on|ck|\t<form><input type=\"radio\" name=\"g\" checked><input type=\"radio\" name=\"g\" checked></form>\n\
    choose @2 1;reset @1\t2 C:\\fakepath\\hi.txt|k|;2 |k|\t<form><input type=\"file\"></form>\n\
    user @2 \"x\";reset @1;text @2 \"b\"\t2 x|k|;2 a|k|;2 b|k|\t<form><textarea>a</textarea></form>\n\
    pick @3;reset @1\t2 a|k| 3 a|s| 4 b||;2 b|k| 3 a|| 4 b|s|\t<form><select><option>a</option><option selected>b</option></select></form>\n\
    pick @4;reset @1\t2 b|k| 3 a|| 4 b|s|;2 a|k| 3 a|s| 4 b||\t<form><select><option>a</option><option>b</option></select></form>\n\
    pick @3;reset @1\t2 a|k| 3 a|s|;2 |k| 3 a||\t<form><select size=\"2\"><option>a</option></select></form>\n\
    pick @3;pick @4;reset @1\t2 |k| 3 a||;2 b|k| 4 b|s|;2 a|k| 3 a|s| 4 b||\t<form><select multiple><option selected>a</option><option>b</option></select></form>\n\
    pick @3;attr @4 selected \"\";reset @1\t2 a|k| 3 a|s|;2 b|k| 3 a|| 4 b|s|;\t<form><select size=\"2\"><option>a</option><option>b</option></select></form>\n\
    custom @2 \"no\";user @2 \"x\";reset @1\t2 |k|c;2 x|k|c;2 |k|c\t<form><input></form>\n\
    user @2 \"abc\";reset @1\t2 abc|k|l;2 ab|k|\t<form><input maxlength=\"1\" value=\"ab\"></form>\n\
    user @3 \"x\";reset @1\t3 x|k|;\t<form></form><form><input></form>\n\
    user @2 \"x\";reset @1\t2 x|k|;2 |k|\t<form id=\"f\"></form><input form=\"f\">\n\
    user @2 \"x\";reset @1\t2 x|k|;\t<form id=\"f\"><input form=\"g\"></form>\n\
    ";

// The number of the first row that does not hold, from 1; 0 where all hold.
fn first_wrong<L: Ledger>(blank: Blank, alloc: Global) -> u32
    requires name { blank.name ≡ L.name }
    requires parts { blank.parts ≡ L.parts }
    requires some { 0 < blank.parts }
{
    let mut steps = Steps::<L>::new(blank);
    wrong_row(alloc, RESETS, &mut steps)
}

#[test]
fn resets_of_every_control(rt: HostRuntime) {
    let wrong = first_wrong::<std::marker::Brand>(Blank::new(1), rt.alloc());
    assert_eq!(rt; wrong, 0);
}
