// What the calls on days and times answer.
use crate::rows::{parts, text, whole};
use form_calendar::{
    print_date, print_local, print_month, print_time, print_week, read_date, read_local,
    read_month, read_time, read_week, weeks_in,
};
use jiff::civil::{Date, ISOWeekDate, Weekday};
use std::alloc::{AllocError, Global};
use std::test::Fail;

// A call, a text, and the number that is read.
const READINGS: [&str; 84] = [
    "read_date|1970-01-02|86400000",
    "read_date|0001-01-01|-62135596800000",
    "read_date|9999-12-31|253402214400000",
    "read_date|2000-02-29|951782400000",
    "read_date|2024-02-29|1709164800000",
    "read_date|1900-02-29|none",
    "read_date|2023-02-29|none",
    "read_date|2024-04-31|none",
    "read_date|2024-01-32|none",
    "read_date|2024-01-00|none",
    "read_date|2024-13-01|none",
    "read_date|2024-00-01|none",
    "read_date|0000-01-01|none",
    "read_date|10000-01-01|none",
    "read_date|+2024-01-01|none",
    "read_date|-2024-01-01|none",
    "read_date|2024-1-01|none",
    "read_date|2024/01/01|none",
    "read_date|2024-01-01 |none",
    "read_date| 2024-01-01|none",
    "read_date|２０２４-01-01|none",
    "read_date|2024-01-٠١|none",
    "read_date||none",
    "read_month|1970-01|0",
    "read_month|1969-12|-1",
    "read_month|0001-01|-23628",
    "read_month|9999-12|96359",
    "read_month|2024-00|none",
    "read_month|2024-13|none",
    "read_month|0000-01|none",
    "read_month|10000-01|none",
    "read_month|-2024-01|none",
    "read_month|2024-1|none",
    "read_month|2024-01-01|none",
    "read_week|1970-W01|-259200000",
    "read_week|2020-W53|1609113600000",
    "read_week|2021-W01|1609718400000",
    "read_week|0001-W01|-62135596800000",
    "read_week|9999-W52|253401868800000",
    "read_week|2021-W53|none",
    "read_week|9999-W53|none",
    "read_week|2021-W00|none",
    "read_week|0000-W01|none",
    "read_week|2020-w53|none",
    "read_week|2020W53|none",
    "read_week|2020-W5|none",
    "read_week|2020-W053|none",
    "weeks_in|1|52",
    "weeks_in|1992|53",
    "weeks_in|2003|52",
    "weeks_in|2015|53",
    "weeks_in|2020|53",
    "weeks_in|2021|52",
    "weeks_in|9999|52",
    "read_time|00:00|0",
    "read_time|12:34|45240000",
    "read_time|12:34:56|45296000",
    "read_time|12:34:56.5|45296500",
    "read_time|12:34:56.05|45296050",
    "read_time|12:34:56.005|45296005",
    "read_time|23:59:59.9|86399900",
    "read_time|23:59:59.999|86399999",
    "read_time|24:00|none",
    "read_time|12:60|none",
    "read_time|12:34:60|none",
    "read_time|12:34:56.7890|none",
    "read_time|12:34:56.|none",
    "read_time|12:34:|none",
    "read_time|1:02|none",
    "read_time|-1:00|none",
    "read_time|12:34 |none",
    "read_local|1970-01-01T00:00|0",
    "read_local|1970-01-01 00:00|0",
    "read_local|1969-12-31T23:59|-60000",
    "read_local|2024-05-06 07:08:00.500|1714979280500",
    "read_local|0001-01-01T00:00|-62135596800000",
    "read_local|9999-12-31T23:59:59.999|253402300799999",
    "read_local|1970-01-01  00:00|none",
    "read_local|1970-01-01t00:00|none",
    "read_local|1970-02-30T00:00|none",
    "read_local|1970-01-01T24:00|none",
    "read_local|1970-01-01T|none",
    "read_local|1970-01-01|none",
    "read_local|T00:00|none",
];

// The weeks of a year that is from 1 to 9999.
fn weeks(year: &str) -> Option<i64> {
    let year = year.parse::<i64>().ok()?;
    if year < 1 || year > 9999 {
        return None;
    }
    Some(weeks_in(year) as i64)
}

// What that call reads.
fn reading(alloc: Global, call: &str, text: &str) -> Result<String, AllocError> {
    match call {
        "read_date" => whole(alloc, read_date(text)),
        "read_month" => whole(alloc, read_month(text)),
        "read_week" => whole(alloc, read_week(text)),
        "weeks_in" => whole(alloc, weeks(text)),
        "read_time" => whole(alloc, read_time(text)),
        "read_local" => whole(alloc, read_local(text)),
        _ => String::from_str(alloc, "no call"),
    }
}

#[test]
fn texts_read(rt: HostRuntime) -> Result<(), Fail> {
    for row in READINGS {
        let (call, text, want) = parts(row).ok_or("no row")?;
        let read = reading(rt.alloc(), call, text)?;
        assert_eq!(rt; (row, read.as_str()), (row, want));
    }
    Ok(())
}

// A call, a number, and the text that is printed.
const PRINTINGS: [&str; 46] = [
    "print_date|0|1970-01-01",
    "print_date|951782400000|2000-02-29",
    "print_date|-62135596800000|0001-01-01",
    "print_date|253402214400000|9999-12-31",
    "print_date|1|none",
    "print_date|-1|none",
    "print_date|-62135683200000|none",
    "print_date|253402300800000|none",
    "print_date|-9223372036854775808|none",
    "print_date|9223372036854775807|none",
    "print_month|-1|1969-12",
    "print_month|-23628|0001-01",
    "print_month|96359|9999-12",
    "print_month|-23629|none",
    "print_month|96360|none",
    "print_month|-9223372036854775808|none",
    "print_month|9223372036854775807|none",
    "print_week|-259200000|1970-W01",
    "print_week|1609113600000|2020-W53",
    "print_week|-62135596800000|0001-W01",
    "print_week|253401868800000|9999-W52",
    "print_week|0|none",
    "print_week|-259199999|none",
    "print_week|-62136201600000|none",
    "print_week|253402473600000|none",
    "print_week|-9223372036854775808|none",
    "print_week|9223372036854775807|none",
    "print_time|0|00:00",
    "print_time|60000|00:01",
    "print_time|1000|00:00:01",
    "print_time|500|00:00:00.5",
    "print_time|50|00:00:00.05",
    "print_time|5|00:00:00.005",
    "print_time|45296789|12:34:56.789",
    "print_time|86399999|23:59:59.999",
    "print_time|86400000|none",
    "print_time|-1|none",
    "print_local|0|1970-01-01T00:00",
    "print_local|-1|1969-12-31T23:59:59.999",
    "print_local|1714979280500|2024-05-06T07:08:00.5",
    "print_local|-62135596800000|0001-01-01T00:00",
    "print_local|253402300799999|9999-12-31T23:59:59.999",
    "print_local|-62135596800001|none",
    "print_local|253402300800000|none",
    "print_local|-9223372036854775808|none",
    "print_local|9223372036854775807|none",
];

// What that call prints.
fn printing(alloc: Global, call: &str, number: i64) -> Result<String, AllocError> {
    match call {
        "print_date" => text(alloc, print_date(alloc, number)?),
        "print_month" => text(alloc, print_month(alloc, number)?),
        "print_week" => text(alloc, print_week(alloc, number)?),
        "print_time" => text(alloc, print_time(alloc, number)?),
        "print_local" => text(alloc, print_local(alloc, number)?),
        _ => String::from_str(alloc, "no call"),
    }
}

#[test]
fn numbers_print(rt: HostRuntime) -> Result<(), Fail> {
    for row in PRINTINGS {
        let (call, number, want) = parts(row).ok_or("no row")?;
        let printed = printing(rt.alloc(), call, number.parse::<i64>()?)?;
        assert_eq!(rt; (row, printed.as_str()), (row, want));
    }
    Ok(())
}

// Whether this text was printed.
fn is_printed(printed: Option<String>, want: &str) -> bool {
    match printed {
        Some(text) => text.as_str() == want,
        None => false,
    }
}

// Whether the text of a day is read as that number and printed of it, and so is the text of the week
// where the day is its first.
fn agrees(alloc: Global, date: Date) -> Result<bool, AllocError> {
    let number = date.to_plain().to_unix_epoch_day() as i64 * 86_400_000;
    let day = format!(in alloc; "{date}")?;
    let of_day = read_date(day.as_str()) == Some(number)
        && is_printed(print_date(alloc, number)?, day.as_str());
    let week = date.iso_week_date();
    if week.weekday() != Weekday::Monday {
        return Ok(of_day);
    }
    let week = format!(in alloc; "{}-W{:02}", week.year(), week.week())?;
    let of_week = read_week(week.as_str()) == Some(number)
        && is_printed(print_week(alloc, number)?, week.as_str());
    Ok(of_day && of_week)
}

// Each day of 400 years, and each week and year of them, as `jiff` has them.
#[test]
fn four_hundred_years_agree(rt: HostRuntime) -> Result<(), Fail> {
    let alloc = rt.alloc();
    let mut date = Date::new(1800, 1, 1)?;
    for _ in 0..146_097 {
        assert!(rt; agrees(alloc, date)?, "{date}");
        date = date.tomorrow()?;
    }
    for year in 1800..2200u16 {
        let week = ISOWeekDate::new(year as i16, 1, Weekday::Monday)?;
        assert_eq!(rt;
            weeks_in(year as i64) as i64,
            week.weeks_in_year() as i64,
            "{year}"
        );
    }
    Ok(())
}
