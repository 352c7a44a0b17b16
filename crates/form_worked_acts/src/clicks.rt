// Clicks of buttons, and implicit submission.
ghost use Rattle.std.specs.Prelude.{◌≡◌, ◌<◌};

use crate::playing::wrong_row;
use form_judge::Steps;
use std::alloc::Global;
use std::sync::ledger::{Blank, Ledger};

const CLICKS: &str = "\
    click @2\tsubmit 1 2 0 0\t<form><input type=\"submit\"></form>\n\
    click @2\tsubmit 1 2 0 0\t<form><input type=\"image\"></form>\n\
    click @2\tsubmit 1 2 0 0\t<form><button></button></form>\n\
    click @2\tsubmit 1 2 0 0\t<form><button type=\"SUBMIT\"></button></form>\n\
    click @2\tsubmit 1 2 0 0\t<form><button type=\"jump\"></button></form>\n\
    click @2\treset 1\t<form><input type=\"reset\"></form>\n\
    click @2\treset 1\t<form><button type=\"reset\"></button></form>\n\
    click @2\tnothing\t<form><input type=\"button\"></form>\n\
    click @2\tnothing\t<form><button type=\"button\"></button></form>\n\
    click @1\tnothing\t<input type=\"submit\">\n\
    click @1\tnothing\t<input type=\"image\">\n\
    click @1\tnothing\t<input type=\"reset\">\n\
    click @1\tnothing\t<button></button>\n\
    click @1\tnothing\t<button type=\"reset\"></button>\n\
    clickat @2 3 4\tsubmit 1 2 3 4\t<form><input type=\"image\"></form>\n\
    clickat @1 3 4\tnothing\t<input type=\"image\">\n\
    clickat @1 3 4\twrong-kind\t<input type=\"submit\">\n\
    clickat @1 3 4\twrong-kind\t<button></button>\n\
    clickat @1 3 4\twrong-kind\t<input type=\"reset\">\n\
    clickat @1 3 4\twrong-kind\t<input>\n\
    click @1\timmutable\t<input type=\"submit\" disabled>\n\
    click @1\timmutable\t<input type=\"button\" disabled>\n\
    click @1\timmutable\t<button disabled></button>\n\
    click @1\timmutable\t<button type=\"reset\" disabled></button>\n\
    clickat @1 3 4\timmutable\t<input type=\"image\" disabled>\n\
    click @2\timmutable\t<fieldset disabled><button></button></fieldset>\n\
    click @1\twrong-kind\t<input type=\"text\">\n\
    click @1\twrong-kind\t<input type=\"checkbox\">\n\
    click @1\twrong-kind\t<input type=\"radio\">\n\
    click @1\twrong-kind\t<input type=\"file\">\n\
    click @1\twrong-kind\t<input type=\"hidden\">\n\
    click @1\twrong-kind\t<input type=\"range\">\n\
    click @1\twrong-kind\t<select></select>\n\
    click @1\twrong-kind\t<textarea></textarea>\n\
    click @1\twrong-kind\t<form></form>\n\
    click @1\twrong-kind\t<fieldset></fieldset>\n\
    click @1\twrong-kind\t<p></p>\n\
    click @2\twrong-kind\t<select><option>a</option></select>\n\
    click @9\tno-element\t<button></button>\n\
    clickat @9 3 4\tno-element\t<button></button>\n\
    click @2\tsubmit 1 2 0 0\t<form id=\"f\"></form><button form=\"f\"></button>\n\
    click @2\tnothing\t<form id=\"f\"><button form=\"g\"></button></form>\n\
    enter @2\tsubmit 1 - 0 0\t<form><input type=\"text\"></form>\n\
    enter @2\tsubmit 1 - 0 0\t<form><input type=\"search\"></form>\n\
    enter @2\tsubmit 1 - 0 0\t<form><input type=\"tel\"></form>\n\
    enter @2\tsubmit 1 - 0 0\t<form><input type=\"url\"></form>\n\
    enter @2\tsubmit 1 - 0 0\t<form><input type=\"password\"></form>\n\
    enter @2\tsubmit 1 - 0 0\t<form><input type=\"date\"></form>\n\
    enter @2\tsubmit 1 - 0 0\t<form><input type=\"month\"></form>\n\
    enter @2\tsubmit 1 - 0 0\t<form><input type=\"week\"></form>\n\
    enter @2\tsubmit 1 - 0 0\t<form><input type=\"time\"></form>\n\
    enter @2\tsubmit 1 - 0 0\t<form><input type=\"datetime-local\"></form>\n\
    enter @2\tsubmit 1 - 0 0\t<form><input type=\"number\"></form>\n\
    enter @2\twrong-kind\t<form><input type=\"range\"></form>\n\
    enter @2\twrong-kind\t<form><input type=\"color\"></form>\n\
    enter @2\twrong-kind\t<form><input type=\"checkbox\"></form>\n\
    enter @2\twrong-kind\t<form><input type=\"radio\"></form>\n\
    enter @2\twrong-kind\t<form><input type=\"file\"></form>\n\
    enter @2\twrong-kind\t<form><input type=\"hidden\"></form>\n\
    enter @2\twrong-kind\t<form><input type=\"submit\"></form>\n\
    enter @2\twrong-kind\t<form><input type=\"image\"></form>\n\
    enter @2\twrong-kind\t<form><input type=\"reset\"></form>\n\
    enter @2\twrong-kind\t<form><input type=\"button\"></form>\n\
    enter @2\twrong-kind\t<form><select></select></form>\n\
    enter @2\twrong-kind\t<form><textarea></textarea></form>\n\
    enter @2\twrong-kind\t<form><button></button></form>\n\
    enter @2\twrong-kind\t<form><p></p></form>\n\
    enter @9\tno-element\t<input>\n\
    enter @1\tnothing\t<input>\n\
    enter @1\timmutable\t<input disabled>\n\
    enter @2\tsubmit 1 - 0 0\t<form><input readonly></form>\n\
    enter @2\tsubmit 1 3 0 0\t<form><input><button></button></form>\n\
    enter @3\tsubmit 1 2 0 0\t<form><button></button><input><button></button></form>\n\
    enter @3\tsubmit 1 2 0 0\t<form><input type=\"image\"><input></form>\n\
    enter @2\tsubmit 1 - 0 0\t<form><input><button type=\"reset\"></button><input type=\"button\"></form>\n\
    enter @2\tnothing\t<form><input><button disabled></button><button></button></form>\n\
    enter @2\tnothing\t<form><input><fieldset disabled><button></button></fieldset></form>\n\
    enter @3\tsubmit 2 - 0 0\t<form id=\"f\"></form><form><input><button form=\"f\"></button></form>\n\
    enter @2\tsubmit 1 3 0 0\t<form id=\"f\"><input></form><button form=\"f\"></button>\n\
    enter @2\tnothing\t<form><input><input></form>\n\
    enter @2\tnothing\t<form><input><input disabled></form>\n\
    enter @2\tsubmit 1 - 0 0\t<form><input><input type=\"checkbox\"></form>\n\
    enter @2\tsubmit 1 4 0 0\t<form><input><input><input type=\"submit\"></form>\n\
    enter @2\tsubmit 1 - 0 0\t<form id=\"f\"><input></form><input form=\"g\">\n\
    enter @2\tnothing\t<form id=\"f\"><input></form><input form=\"f\">\n\
    enter @2;attr @3 type \"checkbox\";enter @2\tnothing;3 on|k|;submit 1 - 0 0\t<form><input name=\"a\"><input name=\"b\"></form>\n\
    ";

// The number of the first row that does not hold, from 1; 0 where all hold.
fn first_wrong<L: Ledger>(blank: Blank, alloc: Global) -> u32
    requires name { blank.name ≡ L.name }
    requires parts { blank.parts ≡ L.parts }
    requires some { 0 < blank.parts }
{
    let mut steps = Steps::<L>::new(blank);
    wrong_row(alloc, CLICKS, &mut steps)
}

#[test]
fn clicks_of_every_button(rt: HostRuntime) {
    let wrong = first_wrong::<std::marker::Brand>(Blank::new(1), rt.alloc());
    assert_eq!(rt; wrong, 0);
}
