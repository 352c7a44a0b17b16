// The commands that set texts: the user's and the script's values, texts of elements, messages.
ghost use Rattle.std.specs.Prelude.{◌≡◌, ◌<◌};

use crate::playing::wrong_row;
use form_judge::Steps;
use std::alloc::Global;
use std::sync::ledger::{Blank, Ledger};

const TEXTS: &str = "\
    user @1 \"x\"\t1 x|k|\t<input>\n\
    user @1 \"x\"\t1 x|k|\t<input type=\"search\">\n\
    user @1 \"x\"\t1 x|k|\t<input type=\"tel\">\n\
    user @1 \"x\"\t1 x|k|\t<input type=\"password\">\n\
    user @1 \" x \"\t1 x|k|t\t<input type=\"url\">\n\
    user @1 \"2024-02-29\"\t1 2024-02-29|k|\t<input type=\"date\">\n\
    user @1 \"2024-02-30\"\t1 |k|b\t<input type=\"date\">\n\
    user @1 \"2024-02\"\t1 2024-02|k|\t<input type=\"month\">\n\
    user @1 \"2020-W53\"\t1 2020-W53|k|\t<input type=\"week\">\n\
    user @1 \"07:08\"\t1 07:08|k|\t<input type=\"time\">\n\
    user @1 \"2024-05-06 07:08\"\t1 2024-05-06T07:08|k|\t<input type=\"datetime-local\">\n\
    user @1 \"5\"\t1 5|k|\t<input type=\"number\">\n\
    user @1 \"x\"\t1 |k|b\t<input type=\"number\">\n\
    user @1 \"x\";user @1 \"\"\t1 |k|b;1 |k|\t<input type=\"number\">\n\
    user @1 \"5\"\t1 5|k|\t<input type=\"range\">\n\
    user @1 \"x\"\t\t<input type=\"range\">\n\
    user @1 \"#ABCDEF\"\t1 #abcdef|k|\t<input type=\"color\">\n\
    user @1 \"x\"\t\t<input type=\"color\">\n\
    user @1 \"x\"\t1 x|k|\t<textarea>a</textarea>\n\
    user @1 \"x\"\twrong-kind\t<input type=\"checkbox\">\n\
    user @1 \"x\"\twrong-kind\t<input type=\"radio\">\n\
    user @1 \"x\"\twrong-kind\t<input type=\"hidden\">\n\
    user @1 \"x\"\twrong-kind\t<input type=\"submit\">\n\
    user @1 \"x\"\twrong-kind\t<input type=\"image\">\n\
    user @1 \"x\"\twrong-kind\t<input type=\"reset\">\n\
    user @1 \"x\"\twrong-kind\t<input type=\"button\">\n\
    user @1 \"x\"\twrong-kind\t<input type=\"file\">\n\
    user @1 \"x\"\twrong-kind\t<select></select>\n\
    user @2 \"x\"\twrong-kind\t<select><option>a</option></select>\n\
    user @1 \"x\"\twrong-kind\t<button></button>\n\
    user @1 \"x\"\twrong-kind\t<form></form>\n\
    user @1 \"x\"\twrong-kind\t<fieldset></fieldset>\n\
    user @1 \"x\"\twrong-kind\t<p></p>\n\
    user @9 \"x\"\tno-element\t<input>\n\
    user @1 \"x\"\timmutable\t<input disabled>\n\
    user @1 \"x\"\timmutable\t<input readonly>\n\
    user @1 \"5\"\t1 5|k|\t<input type=\"range\" readonly>\n\
    user @1 \"x\"\timmutable\t<textarea disabled></textarea>\n\
    user @1 \"x\"\timmutable\t<textarea readonly></textarea>\n\
    user @2 \"x\"\timmutable\t<fieldset disabled><input></fieldset>\n\
    user @3 \"x\"\t3 x|k|\t<fieldset disabled><legend><input></legend></fieldset>\n\
    user @1 \"😀\";set @1 \"😀\"\t1 😀|k|l;1 😀|k|\t<input maxlength=\"1\">\n\
    set @1 \"x\"\t1 x|k|\t<input>\n\
    set @1 \"x\"\t\t<input type=\"number\">\n\
    set @1 \"x\"\t1 x||\t<input disabled>\n\
    set @1 \"x\"\t1 x||\t<input readonly>\n\
    set @1 \"x\"\t1 x||\t<input type=\"hidden\">\n\
    set @1 \"x\"\t1 x|k|\t<input type=\"submit\">\n\
    set @1 \"x\"\t1 x|k|\t<input type=\"image\">\n\
    set @1 \"x\"\t1 x||\t<input type=\"reset\">\n\
    set @1 \"x\"\t1 x||\t<input type=\"button\">\n\
    set @1 \"x\"\t1 x|k|\t<input type=\"checkbox\">\n\
    set @1 \"x\"\t1 x|k|\t<input type=\"radio\">\n\
    set @1 \"x\"\twrong-kind\t<input type=\"file\">\n\
    set @1 \"\"\t\t<input type=\"file\">\n\
    choose @1 1;set @1 \"\"\t1 C:\\fakepath\\hi.txt|k|;1 |k|\t<input type=\"file\">\n\
    choose @1 1;set @1 \"x\"\t1 C:\\fakepath\\hi.txt|k|;wrong-kind\t<input type=\"file\">\n\
    set @1 \"x\"\t1 x|k|\t<textarea>a</textarea>\n\
    set @1 \"x\"\twrong-kind\t<select></select>\n\
    set @2 \"x\"\twrong-kind\t<select><option>a</option></select>\n\
    set @1 \"x\"\twrong-kind\t<button></button>\n\
    set @1 \"x\"\twrong-kind\t<form></form>\n\
    set @1 \"x\"\twrong-kind\t<fieldset></fieldset>\n\
    set @1 \"x\"\twrong-kind\t<p></p>\n\
    set @9 \"x\"\tno-element\t<input>\n\
    set @1 \"2021-W53\";set @2 \"2024-05-06 07:08:00.000\"\t1 |k|;2 2024-05-06T07:08|k|\t<input type=\"week\" value=\"2020-W53\"><input type=\"datetime-local\">\n\
    set @1 \"1900-02-29\";set @1 \"2000-02-29\";set @1 \"9999-12-31\";set @1 \"10000-01-01\"\t;1 2000-02-29|k|;1 9999-12-31|k|;1 |k|\t<input type=\"date\">\n\
    set @1 \"1.\";set @1 \".5\";set @1 \"+1\";set @1 \"1e17\"\t;1 .5|k|x;1 |k|;1 1e17|k|\t<input type=\"number\">\n\
    set @1 \"4\";set @1 \"5\";attr @1 max \"5\"\t1 4|k|;1 6|k|;1 4|k|\t<input type=\"range\" min=\"0\" max=\"10\" step=\"2\">\n\
    set @1 \"0\"\t1 0.3|k|\t<input type=\"range\" value=\"3.3\">\n\
    set @1 \"12:00\";set @1 \"23:00\";set @2 \"2024-01-09\";set @2 \"2024-01-08\"\t1 12:00|k|uo;1 23:00|k|;2 2024-01-09|k|x;2 2024-01-08|k|\t<input type=\"time\" min=\"22:00\" max=\"06:00\"><input type=\"date\" min=\"2024-01-01\" step=\"7\">\n\
    set @1 \"1234\";set @1 \"123\";set @2 \" x \";custom @2 \"no\"\t1 1234|k|p;1 123|k|;2 x|k|t;2 x|k|tc\t<input pattern=\"[0-9]{3}\"><input type=\"url\">\n\
    set @1 \"x\"\tlimit\t<input type=\"hidden\" a b c d e f g h i j k l m n o p q r s t u v w x y z aa ab ac ad ae af ag ah ai aj ak al am an ao ap aq ar as at au av aw ax ay az ba bb bc bd be bf bg bh bi bj bk>\n\
    unattr @1 a;set @1 \"x\"\t;1 x||\t<input type=\"hidden\" a b c d e f g h i j k l m n o p q r s t u v w x y z aa ab ac ad ae af ag ah ai aj ak al am an ao ap aq ar as at au av aw ax ay az ba bb bc bd be bf bg bh bi bj bk>\n\
    attr @1 value \"x\"\tlimit\t<input type=\"hidden\" a b c d e f g h i j k l m n o p q r s t u v w x y z aa ab ac ad ae af ag ah ai aj ak al am an ao ap aq ar as at au av aw ax ay az ba bb bc bd be bf bg bh bi bj bk>\n\
    attr @1 a \"x\"\t\t<input type=\"hidden\" a b c d e f g h i j k l m n o p q r s t u v w x y z aa ab ac ad ae af ag ah ai aj ak al am an ao ap aq ar as at au av aw ax ay az ba bb bc bd be bf bg bh bi bj bk>\n\
    set @1 \"x\"\t1 x|k|\t<input type=\"text\" a b c d e f g h i j k l m n o p q r s t u v w x y z aa ab ac ad ae af ag ah ai aj ak al am an ao ap aq ar as at au av aw ax ay az ba bb bc bd be bf bg bh bi bj bk>\n\
    set @1 \"x\";attr @1 type \"hidden\"\t1 x|k|;limit\t<input type=\"text\" a b c d e f g h i j k l m n o p q r s t u v w x y z aa ab ac ad ae af ag ah ai aj ak al am an ao ap aq ar as at au av aw ax ay az ba bb bc bd be bf bg bh bi bj bk>\n\
    attr @1 type \"hidden\"\t1 ||\t<input type=\"text\" a b c d e f g h i j k l m n o p q r s t u v w x y z aa ab ac ad ae af ag ah ai aj ak al am an ao ap aq ar as at au av aw ax ay az ba bb bc bd be bf bg bh bi bj bk>\n\
    text @1 \"b\"\t1 b|k|\t<textarea>a</textarea>\n\
    user @1 \"x\";text @1 \"b\"\t1 x|k|;\t<textarea>a</textarea>\n\
    set @1 \"x\";text @1 \"b\"\t1 x|k|;\t<textarea>a</textarea>\n\
    text @2 \"b\"\t1 b|k| 2 b|s|\t<select><option>a</option></select>\n\
    text @2 \"b\"\t\t<select><option value=\"a\">a</option></select>\n\
    text @2 \"b\"\t2 b||\t<datalist><option>a</option></datalist>\n\
    text @1 \"b\"\twrong-kind\t<input>\n\
    text @1 \"b\"\twrong-kind\t<select></select>\n\
    text @1 \"b\"\twrong-kind\t<button></button>\n\
    text @1 \"b\"\twrong-kind\t<form></form>\n\
    text @1 \"b\"\twrong-kind\t<p></p>\n\
    text @9 \"b\"\tno-element\t<input>\n\
    custom @1 \"no\"\t1 |k|c\t<input>\n\
    custom @1 \"no\"\t1 ||c\t<input type=\"hidden\">\n\
    custom @1 \"no\"\t1 ||c\t<input disabled>\n\
    custom @1 \"no\"\t1 |k|c\t<textarea></textarea>\n\
    custom @1 \"no\"\t1 |k|c\t<select></select>\n\
    custom @1 \"no\"\t1 |k|c\t<button></button>\n\
    custom @1 \"no\";custom @1 \"\"\t1 |k|c;1 |k|\t<input>\n\
    custom @2 \"no\"\twrong-kind\t<select><option>a</option></select>\n\
    custom @1 \"no\"\twrong-kind\t<fieldset></fieldset>\n\
    custom @1 \"no\"\twrong-kind\t<form></form>\n\
    custom @1 \"no\"\twrong-kind\t<p></p>\n\
    custom @9 \"no\"\tno-element\t<input>\n\
    ";

// The number of the first row that does not hold, from 1; 0 where all hold.
fn first_wrong<L: Ledger>(blank: Blank, alloc: Global) -> u32
    requires name { blank.name ≡ L.name }
    requires parts { blank.parts ≡ L.parts }
    requires some { 0 < blank.parts }
{
    let mut steps = Steps::<L>::new(blank);
    wrong_row(alloc, TEXTS, &mut steps)
}

#[test]
fn texts_of_every_element(rt: HostRuntime) {
    let wrong = first_wrong::<std::marker::Brand>(Blank::new(1), rt.alloc());
    assert_eq!(rt; wrong, 0);
}
