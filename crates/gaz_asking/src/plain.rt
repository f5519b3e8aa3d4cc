//! The answers of a plain gazetteer.
use crate::stopped::{Done, Stopped, had};
use crate::told::Desk;
use gaz_pick::Query;
use gaz_plain::PlainGaz;
use gaz_words::Request;

fn search(plain: &PlainGaz, query: &Query<'_>, desk: &mut Desk) -> Done {
    if query.start > 5000 || query.max > 1000 {
        return Err(Stopped::Wrong("a cut"));
    }
    had(plain.select(query, &mut desk.best))?;
    desk.tell_pairs(query.start, query.max)
}

fn children(plain: &PlainGaz, id: u32, max: u32, desk: &mut Desk) -> Done {
    if max > 1000 {
        return Err(Stopped::Wrong("a cut"));
    }
    plain.children(id, max, &mut desk.best);
    desk.tell_pairs(0, max)
}

fn hierarchy(plain: &PlainGaz, id: u32, desk: &mut Desk) -> Done {
    let count = plain.chain(id, &mut desk.ids);
    desk.tell_chain(count)
}

/// Tells the line that was found.
fn line(found: Option<&[u8]>, desk: &mut Desk) -> Done {
    match found {
        Some(line) => had(desk.told.extend_from_slice(line)),
        None => Ok(()),
    }
}

/// Tells the answer to a request.
pub fn tell(plain: &PlainGaz, request: &Request<'_>, desk: &mut Desk) -> Done {
    desk.told.clear();
    match request {
        Request::Search(query) => search(plain, query, desk)?,
        Request::Children(id, max) => children(plain, *id, *max, desk)?,
        Request::Hierarchy(id) => hierarchy(plain, *id, desk)?,
        Request::Get(id) => line(plain.get(*id), desk)?,
        Request::Admin(code) => line(plain.admin(code.as_bytes()), desk)?,
        Request::Load(_) | Request::Day(_) => return Err(Stopped::Wrong("a request")),
    }
    desk.tell_nothing()
}
