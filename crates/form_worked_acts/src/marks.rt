// The commands that check, pick and choose.
ghost use Rattle.std.specs.Prelude.{◌≡◌, ◌<◌};

use crate::playing::wrong_row;
use form_judge::Steps;
use std::alloc::Global;
use std::sync::ledger::{Blank, Ledger};

const MARKS: &str = "\
    check @1\t1 on|ck|\t<input type=\"checkbox\">\n\
    check @1\t\t<input type=\"checkbox\" checked>\n\
    check @1\t1 on|ck|\t<input type=\"checkbox\" required>\n\
    check @1\t1 on|ck|\t<input type=\"checkbox\" readonly>\n\
    check @1\t1 on|ck|\t<input type=\"radio\">\n\
    check @1\timmutable\t<input type=\"checkbox\" disabled>\n\
    check @1\timmutable\t<input type=\"radio\" disabled>\n\
    uncheck @1\t1 on|k|\t<input type=\"checkbox\" checked>\n\
    uncheck @1\timmutable\t<input type=\"checkbox\" checked disabled>\n\
    uncheck @1\twrong-kind\t<input type=\"radio\" checked>\n\
    check @1\twrong-kind\t<input type=\"text\">\n\
    check @1\twrong-kind\t<input type=\"hidden\">\n\
    check @1\twrong-kind\t<input type=\"submit\">\n\
    check @1\twrong-kind\t<input type=\"file\">\n\
    check @1\twrong-kind\t<input type=\"range\">\n\
    check @1\twrong-kind\t<select></select>\n\
    check @2\twrong-kind\t<select><option>a</option></select>\n\
    check @1\twrong-kind\t<button></button>\n\
    check @1\twrong-kind\t<form></form>\n\
    check @1\twrong-kind\t<fieldset></fieldset>\n\
    check @1\twrong-kind\t<p></p>\n\
    check @1\twrong-kind\t<textarea></textarea>\n\
    check @9\tno-element\t<input>\n\
    uncheck @1\twrong-kind\t<input type=\"text\">\n\
    uncheck @1\twrong-kind\t<input type=\"hidden\">\n\
    uncheck @1\twrong-kind\t<input type=\"submit\">\n\
    uncheck @1\twrong-kind\t<input type=\"file\">\n\
    uncheck @1\twrong-kind\t<input type=\"range\">\n\
    uncheck @1\twrong-kind\t<select></select>\n\
    uncheck @2\twrong-kind\t<select><option>a</option></select>\n\
    uncheck @1\twrong-kind\t<button></button>\n\
    uncheck @1\twrong-kind\t<form></form>\n\
    uncheck @1\twrong-kind\t<fieldset></fieldset>\n\
    uncheck @1\twrong-kind\t<p></p>\n\
    uncheck @1\twrong-kind\t<textarea></textarea>\n\
    uncheck @9\tno-element\t<input>\n\
    check @2\t1 on|k| 2 on|ck|\t<input type=\"radio\" name=\"g\" checked><input type=\"radio\" name=\"g\">\n\
    check @2\t2 on|ck|\t<input type=\"radio\" name=\"g\" checked><input type=\"radio\" name=\"h\">\n\
    check @2\t2 on|ck|\t<input type=\"radio\" checked><input type=\"radio\">\n\
    check @2;attr @3 name \"h\"\t2 on|ck| 3 on|k|;3 on|k|m\t<form><input type=\"radio\" name=\"g\"><input type=\"radio\" name=\"g\" required></form>\n\
    setchecked @2 yes\t1 on|k| 2 on|ck|\t<input type=\"radio\" name=\"g\" checked><input type=\"radio\" name=\"g\">\n\
    setchecked @1 no\t1 on|k|\t<input type=\"radio\" name=\"g\" checked><input type=\"radio\" name=\"g\">\n\
    setchecked @1 yes\t1 on|ck|\t<input type=\"checkbox\">\n\
    setchecked @1 no\t\t<input type=\"checkbox\">\n\
    setchecked @1 yes\t1 on|c|\t<input type=\"checkbox\" disabled>\n\
    setchecked @1 yes;attr @1 type \"checkbox\"\t;1 on|ck|\t<input>\n\
    setchecked @1 yes\t\t<input type=\"hidden\">\n\
    setchecked @1 yes\t\t<input type=\"submit\">\n\
    setchecked @1 yes\t\t<input type=\"file\">\n\
    setchecked @1 yes\t\t<input type=\"range\">\n\
    setchecked @1 yes\twrong-kind\t<select></select>\n\
    setchecked @2 yes\twrong-kind\t<select><option>a</option></select>\n\
    setchecked @1 yes\twrong-kind\t<button></button>\n\
    setchecked @1 yes\twrong-kind\t<form></form>\n\
    setchecked @1 yes\twrong-kind\t<fieldset></fieldset>\n\
    setchecked @1 yes\twrong-kind\t<p></p>\n\
    setchecked @1 yes\twrong-kind\t<textarea></textarea>\n\
    setchecked @9 yes\tno-element\t<input>\n\
    pick @3\t1 b|k| 2 a|| 3 b|s|\t<select><option>a</option><option>b</option></select>\n\
    pick @2\t\t<select><option>a</option><option>b</option></select>\n\
    pick @2\t1 a|k| 2 a|s|\t<select multiple><option>a</option></select>\n\
    pick @2;pick @2\t1 a|k| 2 a|s|;1 |k| 2 a||\t<select multiple><option>a</option></select>\n\
    pick @2\t1 a|k| 2 a|s|\t<select size=\"2\"><option>a</option></select>\n\
    pick @2\timmutable\t<select disabled><option>a</option></select>\n\
    pick @3\timmutable\t<fieldset disabled><select><option>a</option></select></fieldset>\n\
    pick @2\timmutable\t<select><option disabled>a</option></select>\n\
    pick @3\timmutable\t<select><optgroup disabled><option>a</option></optgroup></select>\n\
    pick @3\t1 a|k| 3 a|s|\t<select size=\"2\"><optgroup><option>a</option></optgroup></select>\n\
    pick @2\twrong-kind\t<select><optgroup></optgroup></select>\n\
    pick @2\twrong-kind\t<datalist><option>a</option></datalist>\n\
    pick @1\twrong-kind\t<select></select>\n\
    pick @1\twrong-kind\t<input>\n\
    pick @1\twrong-kind\t<textarea></textarea>\n\
    pick @1\twrong-kind\t<button></button>\n\
    pick @1\twrong-kind\t<form></form>\n\
    pick @1\twrong-kind\t<p></p>\n\
    pick @9\tno-element\t<select><option>a</option><option>b</option></select>\n\
    setselected @3 yes\t1 b|k| 2 a|| 3 b|s|\t<select><option>a</option><option>b</option></select>\n\
    setselected @2 no\t\t<select><option>a</option><option>b</option></select>\n\
    setselected @3 no\t1 a|k| 2 a|s| 3 b||\t<select><option>a</option><option selected>b</option></select>\n\
    setselected @3 no\t1 |k| 3 b||\t<select><option disabled>a</option><option selected disabled>b</option></select>\n\
    setselected @2 yes;setselected @2 no\t1 a|k| 2 a|s|;1 |k| 2 a||\t<select size=\"2\"><option>a</option></select>\n\
    setselected @2 yes;setselected @2 no\t1 a|k| 2 a|s|;1 |k| 2 a||\t<select multiple><option>a</option></select>\n\
    setselected @3 yes\t1 b|k| 2 a|| 3 b|s|\t<select><option>a</option><option disabled>b</option></select>\n\
    setselected @2 yes\twrong-kind\t<datalist><option>a</option></datalist>\n\
    setselected @1 yes\twrong-kind\t<select></select>\n\
    setselected @1 yes\twrong-kind\t<input>\n\
    setselected @1 yes\twrong-kind\t<textarea></textarea>\n\
    setselected @1 yes\twrong-kind\t<button></button>\n\
    setselected @1 yes\twrong-kind\t<form></form>\n\
    setselected @1 yes\twrong-kind\t<p></p>\n\
    setselected @9 yes\tno-element\t<select><option>a</option><option>b</option></select>\n\
    choose @1 1\t1 C:\\fakepath\\hi.txt|k|\t<input type=\"file\">\n\
    choose @1 2\t1 C:\\fakepath\\b|k|\t<input type=\"file\">\n\
    choose @1 1;choose @1\t1 C:\\fakepath\\hi.txt|k|;1 |k|\t<input type=\"file\">\n\
    choose @1 1\t1 C:\\fakepath\\hi.txt|k|\t<input type=\"file\" required>\n\
    choose @1 1 2\tlimit\t<input type=\"file\">\n\
    choose @1 1 1\tlimit\t<input type=\"file\">\n\
    choose @1 1 1\t1 C:\\fakepath\\hi.txt|k|\t<input type=\"file\" multiple>\n\
    choose @1 3\tno-file\t<input type=\"file\">\n\
    choose @1 3 3\tno-file\t<input type=\"file\">\n\
    choose @1 3\timmutable\t<input type=\"file\" disabled>\n\
    choose @1 1\twrong-kind\t<input>\n\
    choose @1 1\twrong-kind\t<textarea></textarea>\n\
    choose @1 1\twrong-kind\t<select></select>\n\
    choose @1 1\twrong-kind\t<button></button>\n\
    choose @1 1\twrong-kind\t<form></form>\n\
    choose @1 1\twrong-kind\t<p></p>\n\
    choose @9 1\tno-element\t<input>\n\
    withdraw 1\t\t<input type=\"file\">\n\
    withdraw 3\tno-file\t<input type=\"file\">\n\
    withdraw 1;withdraw 1\t;no-file\t<input type=\"file\">\n\
    withdraw 1;choose @1 1\t;no-file\t<input type=\"file\">\n\
    choose @1 1;withdraw 2;withdraw 1\t1 C:\\fakepath\\hi.txt|k|;;1 |k|\t<input type=\"file\">\n\
    choose @1 1 2;choose @2 1;withdraw 1\t1 C:\\fakepath\\hi.txt|k|;2 C:\\fakepath\\hi.txt|k|;1 C:\\fakepath\\b|k| 2 |k|\t<input type=\"file\" multiple><input type=\"file\">\n\
    ";

// The number of the first row that does not hold, from 1; 0 where all hold.
fn first_wrong<L: Ledger>(blank: Blank, alloc: Global) -> u32
    requires name { blank.name ≡ L.name }
    requires parts { blank.parts ≡ L.parts }
    requires some { 0 < blank.parts }
{
    let mut steps = Steps::<L>::new(blank);
    wrong_row(alloc, MARKS, &mut steps)
}

#[test]
fn marks_of_every_element(rt: HostRuntime) {
    let wrong = first_wrong::<std::marker::Brand>(Blank::new(1), rt.alloc());
    assert_eq!(rt; wrong, 0);
}
