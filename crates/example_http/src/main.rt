//! Sessions over HTTP/1.1. The program serves one connection, whose bytes are its standard input and output, and ends with it. If
//! the connection itself ends since there is no memory, the program fails.
//! The module `desk` says which requests there are.
#![tactic(auto)]

mod desk;
mod sessions;

use crate::desk::Desk;
use http_server::{Config, Connection, State, serve};
use iddqd_tri::TriHashMap;
use std::alloc::AllocError;
use std::hash::RandomState;
use std::io;

fn main(rt: HostRuntime) -> io::Result<()> {
    let alloc = rt.alloc();
    let of_sessions = RandomState::new(&rt)?;
    let of_headers = RandomState::new(&rt)?;
    let mut desk = Desk {
        sessions: TriHashMap::with_hasher(alloc, of_sessions),
        alloc,
    };
    let mut connection = Connection::new(alloc, of_headers, Config::default());
    serve_all(&rt, &mut connection, &mut desk)
}

/// Serves the connection until it ends.
fn serve_all(rt: &HostRuntime, connection: &mut Connection, desk: &mut Desk) -> io::Result<()> {
    serve(connection, desk, &mut rt.stdin(), &mut rt.stdout())?;
    match connection.state() {
        State::Aborted => Err(AllocError.into()),
        _ => Ok(()),
    }
}
