//! Lines of the export, and requests.
use gaz_alt::{Alt, check_alt, check_delete};
use gaz_num::{count_fields, field, read_count};
use gaz_row::{Row, check_row};
use gaz_tables::{LinkClass, check_code, check_country, check_link, country_place};
use gaz_words::{Request, read_request};
use std::io;

/// Bytes as they are printed: text, or `no text`.
fn text_of(bytes: &[u8]) -> &str {
    match str::from_utf8(bytes) {
        Ok(text) => text,
        Err(_) => "no text",
    }
}

/// A number, a tab and a line: the number of its columns, and the one with that number, from 0.
pub(crate) fn tell_field(rt: &HostRuntime, text: &str) -> io::Result<()> {
    let Some((number, line)) = text.split_once('\t') else {
        return println!(rt; "no tab");
    };
    let Some(number) = read_count(number.as_bytes(), 100) else {
        return println!(rt; "no number");
    };
    let count = count_fields(line.as_bytes());
    match field(line.as_bytes(), number as usize) {
        Some(column) => {
            let column = text_of(column);
            println!(rt; "{count} <{column}>")
        }
        None => println!(rt; "{count} none"),
    }
}

/// What the view of an accepted row shows.
fn print_row(rt: &HostRuntime, row: &Row<'_>) -> io::Result<()> {
    let (id, name, ascii) = (row.id(), row.name(), row.ascii());
    let (latitude, longitude) = (row.latitude(), row.longitude());
    println!(rt; "{id} <{name}> <{ascii}> {latitude} {longitude}")?;
    let (class, code, country) = (row.class(), row.code(), row.country());
    let (first, second, third, fourth) = (row.admin(1), row.admin(2), row.admin(3), row.admin(4));
    println!(rt; "  <{class}> <{code}> <{country}> <{first}> <{second}> <{third}> <{fourth}>")?;
    let population = row.population();
    println!(rt; "  {population}")
}

/// A line of the dump: its columns, or the first reason against it.
pub(crate) fn tell_row(rt: &HostRuntime, line: &[u8]) -> io::Result<()> {
    match check_row(line) {
        Ok(_) => print_row(rt, &Row::of(line)),
        Err(reason) => {
            let reason = reason.text();
            println!(rt; "refused {reason}")
        }
    }
}

/// What the view of an accepted alternate name shows.
fn print_alternate(rt: &HostRuntime, alternate: &Alt<'_>) -> io::Result<()> {
    let (id, place) = (alternate.id(), alternate.place());
    let (language, text) = (alternate.language(), alternate.text());
    println!(rt; "{id} of {place} <{language}> <{text}>")
}

/// A line of alternate names: its columns, or the first reason against it.
pub(crate) fn tell_alternate(rt: &HostRuntime, line: &[u8]) -> io::Result<()> {
    match check_alt(line) {
        Ok(_) => print_alternate(rt, &Alt::of(line)),
        Err(reason) => {
            let reason = reason.text();
            println!(rt; "refused {reason}")
        }
    }
}

/// A line of a deletes file: its id, or the first reason against it.
pub(crate) fn tell_delete(rt: &HostRuntime, line: &[u8]) -> io::Result<()> {
    match check_delete(line) {
        Ok(id) => println!(rt; "{id}"),
        Err(reason) => {
            let reason = reason.text();
            println!(rt; "refused {reason}")
        }
    }
}

/// A link: its child, class and parent, or the first reason against it.
pub(crate) fn tell_link(rt: &HostRuntime, line: &[u8]) -> io::Result<()> {
    match check_link(line) {
        Ok(key) => {
            let (child, class, parent) = (key.child, class_name(key.class), key.parent);
            println!(rt; "{child} {class} {parent}")
        }
        Err(reason) => {
            let reason = reason.text();
            println!(rt; "refused {reason}")
        }
    }
}

fn class_name(class: LinkClass) -> &'static str {
    match class {
        LinkClass::Adm => "adm",
        LinkClass::Plain => "plain",
        LinkClass::Other => "other",
    }
}

/// The place that a country's line names, or none.
fn print_country(rt: &HostRuntime, code: &str, line: &[u8]) -> io::Result<()> {
    match country_place(line) {
        Some(place) => println!(rt; "<{code}> is {place}"),
        None => println!(rt; "<{code}> is no place"),
    }
}

/// A country: its code and its place, or a comment, or the first reason against it.
pub(crate) fn tell_country(rt: &HostRuntime, line: &[u8]) -> io::Result<()> {
    match check_country(line) {
        Ok(Some(code)) => print_country(rt, text_of(code), line),
        Ok(None) => println!(rt; "comment"),
        Err(reason) => {
            let reason = reason.text();
            println!(rt; "refused {reason}")
        }
    }
}

/// An admin code, or the first reason against its line.
pub(crate) fn tell_code(rt: &HostRuntime, line: &[u8]) -> io::Result<()> {
    match check_code(line) {
        Ok(code) => {
            let code = text_of(code);
            println!(rt; "<{code}>")
        }
        Err(reason) => {
            let reason = reason.text();
            println!(rt; "refused {reason}")
        }
    }
}

/// What the request asks, with the number of its date.
fn print_request(rt: &HostRuntime, request: &Request<'_>) -> io::Result<()> {
    match request {
        Request::Load(day) => {
            let number = day.number();
            println!(rt; "load of day {number}")
        }
        Request::Day(day) => {
            let number = day.number();
            println!(rt; "day {number}")
        }
        Request::Get(id) => println!(rt; "get of {id}"),
        Request::Search(query) => {
            let (start, most) = (query.start, query.max);
            println!(rt; "search from {start}, at most {most}")
        }
        Request::Children(id, most) => println!(rt; "children of {id}, at most {most}"),
        Request::Hierarchy(id) => println!(rt; "chain of {id}"),
        Request::Admin(code) => println!(rt; "admin code <{code}>"),
    }
}

/// A request, or its first bad word.
pub(crate) fn tell_request(rt: &HostRuntime, line: &[u8]) -> io::Result<()> {
    match read_request(line) {
        Ok(request) => print_request(rt, &request),
        Err(bad) => {
            let word = bad.word();
            println!(rt; "refused {word}")
        }
    }
}
