// Changes of the state of an input, over its modes, with values that are dirty and clean.
ghost use Rattle.std.specs.Prelude.{◌≡◌, ◌<◌};

use crate::playing::wrong_row;
use form_judge::Steps;
use std::alloc::Global;
use std::sync::ledger::{Blank, Ledger};

const TYPES: &str = "\
    attr @1 type \"hidden\"\t1 v||\t<input value=\"v\">\n\
    set @1 \"w\";attr @1 type \"hidden\"\t1 w|k|;1 w||\t<input value=\"v\">\n\
    user @1 \"w\";attr @1 type \"submit\"\t1 w|k|;\t<input value=\"v\">\n\
    set @1 \"\";attr @1 type \"hidden\"\t1 |k|;1 v||\t<input value=\"v\">\n\
    attr @1 type \"hidden\"\t1 ||\t<input>\n\
    attr @1 type \"checkbox\"\t\t<input value=\"v\">\n\
    attr @1 type \"checkbox\"\t1 on|k|\t<input>\n\
    set @1 \"w\";attr @1 type \"radio\"\t1 w|k|;\t<input value=\"v\">\n\
    attr @1 type \"file\"\t1 |k|\t<input value=\"v\">\n\
    attr @1 type \"file\";attr @1 type \"text\"\t1 |k|;1 v|k|\t<input value=\"v\">\n\
    set @1 \"w\";attr @1 type \"file\";attr @1 type \"text\"\t1 w|k|;1 |k|;1 v|k|\t<input value=\"v\">\n\
    attr @1 type \"number\"\t1 |k|\t<input value=\"x\">\n\
    attr @1 type \"number\";attr @1 type \"text\"\t1 |k|;\t<input value=\"x\">\n\
    attr @1 type \"number\"\t\t<input value=\"7\">\n\
    attr @1 type \"range\"\t\t<input value=\"7\">\n\
    attr @1 type \"range\"\t1 50|k|\t<input>\n\
    attr @1 type \"color\"\t1 #000000|k|\t<input>\n\
    attr @1 type \"url\"\t1 x|k|t\t<input value=\"x\">\n\
    attr @1 type \"search\"\t\t<input value=\"v\">\n\
    user @1 \"2024-02-30\";attr @1 type \"date\";attr @1 type \"text\";attr @1 value \"z\"\t1 2024-02-30|k|;1 |k|;;\t<input>\n\
    user @1 \"x\";attr @1 type \"text\";attr @1 type \"number\"\t1 |k|b;1 |k|;\t<input type=\"number\">\n\
    user @1 \"x\";attr @1 type \"date\"\t1 |k|b;1 |k|\t<input type=\"number\">\n\
    user @1 \"x\";attr @1 type \"NUMBER\"\t1 |k|b;\t<input type=\"number\">\n\
    user @1 \"abc\";attr @1 type \"search\"\t1 abc|k|l;\t<input maxlength=\"1\">\n\
    user @1 \"abc\";attr @1 type \"hidden\";attr @1 type \"text\"\t1 abc|k|l;1 abc||;1 abc|k|\t<input maxlength=\"1\">\n\
    attr @1 type \"text\"\t1 v|k|\t<input type=\"hidden\" value=\"v\">\n\
    unattr @1 type\t1 v|k|\t<input type=\"hidden\" value=\"v\">\n\
    attr @1 type \"text\";attr @1 value \"w\"\t1 v|k|;1 w|k|\t<input type=\"hidden\" value=\"v\">\n\
    set @1 \"v\";attr @1 type \"hidden\";attr @1 type \"text\";attr @1 value \"w\"\t1 v|k|;1 v||;1 v|k|;1 w|k|\t<input value=\"v0\">\n\
    attr @1 type \"number\"\t1 |k|\t<input type=\"hidden\" value=\"v\">\n\
    attr @1 type \"checkbox\"\t1 on|k|\t<input type=\"hidden\">\n\
    attr @1 type \"radio\"\t1 v|k|\t<input type=\"hidden\" value=\"v\">\n\
    attr @1 type \"file\"\t1 |k|\t<input type=\"hidden\" value=\"v\">\n\
    attr @1 type \"submit\"\t1 v|k|\t<input type=\"hidden\" value=\"v\">\n\
    attr @1 type \"text\"\t1 |k|\t<input type=\"checkbox\">\n\
    attr @1 type \"text\"\t\t<input type=\"checkbox\" value=\"v\">\n\
    attr @1 type \"hidden\"\t1 ||\t<input type=\"checkbox\">\n\
    attr @1 type \"file\"\t1 |k|\t<input type=\"checkbox\">\n\
    attr @1 type \"radio\"\t\t<input type=\"checkbox\" checked>\n\
    attr @2 type \"radio\"\t1 on|k|\t<input type=\"radio\" name=\"g\" checked><input type=\"checkbox\" name=\"g\" checked>\n\
    attr @2 type \"radio\"\t\t<input type=\"radio\" name=\"g\" checked><input type=\"checkbox\" name=\"g\">\n\
    attr @2 type \"radio\"\t\t<input type=\"radio\" name=\"g\" checked><input type=\"checkbox\" name=\"h\" checked>\n\
    attr @1 type \"checkbox\"\t2 on|k|m\t<input type=\"radio\" name=\"g\" checked><input type=\"radio\" name=\"g\" required>\n\
    attr @1 type \"checkbox\";check @2;attr @1 type \"radio\"\t2 on|k|m;2 on|ck|;2 on|k|\t<input type=\"radio\" name=\"g\" checked><input type=\"radio\" name=\"g\" required>\n\
    choose @1 1;attr @1 type \"text\";attr @1 type \"file\"\t1 C:\\fakepath\\hi.txt|k|;1 v|k|;1 |k|\t<input type=\"file\" value=\"v\">\n\
    choose @1 1;attr @1 type \"hidden\"\t1 C:\\fakepath\\hi.txt|k|;1 ||\t<input type=\"file\">\n\
    attr @1 type \"checkbox\"\t1 on|k|\t<input type=\"file\">\n\
    choose @1 1;attr @1 type \"FILE\"\t1 C:\\fakepath\\hi.txt|k|;\t<input type=\"file\">\n\
    attr @1 type \"TEXT\"\t\t<input>\n\
    attr @1 type \"jump\"\t\t<input>\n\
    attr @1 type \"reset\"\t1 ||\t<button></button>\n\
    attr @1 type \"jump\"\t1 |k|\t<button type=\"reset\"></button>\n\
    ";

// The number of the first row that does not hold, from 1; 0 where all hold.
fn first_wrong<L: Ledger>(blank: Blank, alloc: Global) -> u32
    requires name { blank.name ≡ L.name }
    requires parts { blank.parts ≡ L.parts }
    requires some { 0 < blank.parts }
{
    let mut steps = Steps::<L>::new(blank);
    wrong_row(alloc, TYPES, &mut steps)
}

#[test]
fn changes_of_every_mode(rt: HostRuntime) {
    let wrong = first_wrong::<std::marker::Brand>(Blank::new(1), rt.alloc());
    assert_eq!(rt; wrong, 0);
}
