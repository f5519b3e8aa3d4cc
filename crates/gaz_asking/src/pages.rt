//! The answers of a store.
use crate::both::Store;
use crate::stopped::{Done, Stopped};
use crate::told::Desk;
use gaz_pick::Query;
use gaz_rows::AskFault;
use gaz_words::Request;
use std::alloc::Global;

fn search(alloc: Global, store: &mut Store, query: &Query<'_>, desk: &mut Desk) -> Done {
    if query.start > 5000 || query.max > 1000 {
        return Err(Stopped::Wrong("a cut"));
    }
    match gaz_plan::search(alloc, store, query, &mut desk.room, &mut desk.best) {
        Ok(()) => desk.tell_pairs(query.start, query.max),
        Err(fault) => Err(Stopped::Ask(fault)),
    }
}

fn children(store: &mut Store, id: u32, max: u32, desk: &mut Desk) -> Done {
    if max > 1000 {
        return Err(Stopped::Wrong("a cut"));
    }
    match gaz_kin::children(store, id, max, &mut desk.room, &mut desk.best) {
        Ok(()) => desk.tell_pairs(0, max),
        Err(fault) => Err(Stopped::Kin(fault)),
    }
}

fn hierarchy(store: &mut Store, id: u32, desk: &mut Desk) -> Done {
    match gaz_kin::chain(store, id, &mut desk.room, &mut desk.ids) {
        Ok(count) => desk.tell_chain(count),
        Err(fault) => Err(Stopped::Kin(fault)),
    }
}

/// Tells the line that was found.
fn line(found: Result<Option<usize>, AskFault>, desk: &mut Desk) -> Done {
    match found {
        Ok(Some(size)) => desk.tell_front(size),
        Ok(None) => Ok(()),
        Err(fault) => Err(Stopped::Ask(fault)),
    }
}

fn get(store: &mut Store, id: u32, desk: &mut Desk) -> Done {
    let found = store.get_row(id, &mut desk.room);
    line(found, desk)
}

fn admin(store: &mut Store, code: &str, desk: &mut Desk) -> Done {
    let found = store.get_code(code.as_bytes(), &mut desk.room);
    line(found, desk)
}

/// Tells the answer to a request.
pub fn tell(alloc: Global, store: &mut Store, request: &Request<'_>, desk: &mut Desk) -> Done {
    desk.told.clear();
    match request {
        Request::Search(query) => search(alloc, store, query, desk)?,
        Request::Children(id, max) => children(store, *id, *max, desk)?,
        Request::Hierarchy(id) => hierarchy(store, *id, desk)?,
        Request::Get(id) => get(store, *id, desk)?,
        Request::Admin(code) => admin(store, code, desk)?,
        Request::Load(_) | Request::Day(_) => return Err(Stopped::Wrong("a request")),
    }
    desk.tell_nothing()
}
